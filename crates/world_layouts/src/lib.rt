//! That the layouts of a world's clients are their own, as the metadata server grants and ends them.
#![tactic(auto)]

mod laws;

pub use laws::world_layouts;
