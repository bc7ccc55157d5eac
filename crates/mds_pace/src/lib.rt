//! What a metadata server goes on by: when a record of it goes out again.
#![tactic(auto)]

mod laws;

pub use laws::repeat_law;
