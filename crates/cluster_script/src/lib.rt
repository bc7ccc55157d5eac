//! The lines of a cluster's script.
#![tactic(auto)]

mod args;
mod event;
mod files;
mod line;
mod moves;
mod requests;
mod sizes;
mod words;

pub use event::ClusterEvent;
pub use line::{parse_cluster, parse_event};
pub use sizes::ClusterSizes;
pub use words::name_at;
