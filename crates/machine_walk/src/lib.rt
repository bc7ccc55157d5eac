//! One walk through the runs of a cluster's machine in which all holders are bound.
#![tactic(auto)]

mod laws;

pub use laws::owners_law;
