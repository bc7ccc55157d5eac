//! All copies agree.
#![tactic(auto)]

mod laws;

pub use laws::agreement_law;
