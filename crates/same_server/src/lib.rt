//! The rule of a data server on records, and its rule on the cluster's calls, are one.
#![tactic(auto)]

mod laws;

pub use laws::same_server;
