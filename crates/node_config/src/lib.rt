//! What a node of the cluster is told at its start.
#![tactic(auto)]

mod config;

pub use config::{Config, MAX_MIRRORS, MAX_NUMBER, MAX_SERVERS};
