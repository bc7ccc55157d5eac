//! That a data server refuses a call of a holder only once its period has ended, in every world of a cluster.
#![tactic(auto)]

mod laws;

pub use laws::world_fences;
