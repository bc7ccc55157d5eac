//! What holds of the journal of every script.
#![tactic(auto)]

mod laws;

pub use laws::script_laws;
