//! What a metadata server of the cluster does (RFC 8881; RFC 8435).
#![tactic(auto)]

mod asks;
mod mds;
mod receive;
mod ticks;
mod timeouts;

pub use mds::Mds;
pub use node_config::Config;
