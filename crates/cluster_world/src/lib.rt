//! The world of a cluster: its machines, the packets between them, and the journal of what happened.
#![tactic(auto)]

mod draft;
mod packets;
mod stage;
mod time;
mod users;
mod world;

pub use world::ClusterWorld;
