//! The mirrors of a period, in every bound run of the cluster's machine.
#![tactic(auto)]

mod laws;

pub use laws::held_mirrors;
