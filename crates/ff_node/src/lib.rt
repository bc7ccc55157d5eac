//! A node of the cluster: its configuration, and how it serves over a link.
#![tactic(auto)]

mod config;
mod end;
mod fault;
mod moments;
mod node;
mod nothing;
mod serve;

pub use config::{ConfigFault, MAX_LINE, read_config};
pub use end::NodeEnd;
pub use fault::EventFault;
pub use moments::is_new_moment;
pub use node::Node;
pub use node_config::Config;
pub use nothing::{NoSink, StillClock};
pub use serve::serve_node;
