//! That a layout of a world's clients is granted once.
#![tactic(auto)]

mod laws;

pub use laws::world_grants;
