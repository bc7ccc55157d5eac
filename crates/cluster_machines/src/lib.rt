//! The machines of a cluster, each by its own rule.
#![tactic(auto)]

mod audits;
mod first;
mod machines;
mod numbers;
mod restarts;
mod users;

pub use machines::Machines;
