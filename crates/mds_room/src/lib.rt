//! The room for numbers that a run of a metadata server has at each moment.
#![tactic(auto)]

mod laws;

pub use laws::room_law;
