//! That those who hold a file keep their part, in every world of a cluster.
#![tactic(auto)]

mod laws;

pub use laws::world_holders;
