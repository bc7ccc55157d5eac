//! The journal of a world of a cluster is woven of the histories of its nodes.
#![tactic(auto)]

mod laws;

pub use laws::node_histories;
