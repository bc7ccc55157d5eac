//! Worlds of a cluster as runs of the cluster's machine whose holders are bound.
#![tactic(auto)]

mod laws;

pub use laws::bound_worlds;
