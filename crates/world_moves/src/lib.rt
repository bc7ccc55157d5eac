//! The journal of a world of a cluster tells what a run of the cluster's machine tells.
#![tactic(auto)]

mod laws;

pub use laws::world_moves;
