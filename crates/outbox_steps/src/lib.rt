//! What a step put out is handed over whole, or not at all.
#![tactic(auto)]

mod hand_over;

pub use hand_over::hand_all;
