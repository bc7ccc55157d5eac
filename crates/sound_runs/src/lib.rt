//! Bound runs have sound journals.
#![tactic(auto)]

mod laws;

pub use laws::sound_runs;
