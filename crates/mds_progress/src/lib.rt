//! What a metadata server goes on by: what waits for a tick does not wait behind it.
#![tactic(auto)]

mod laws;

pub use laws::{out_law, tick_law};
