//! That a world of few machines has room for numbers at each moment.
#![tactic(auto)]

mod laws;

pub use laws::world_room;
