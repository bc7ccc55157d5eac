//! What the answer to a READ rests on.
#![tactic(auto)]

mod laws;

pub use laws::read_runs;
