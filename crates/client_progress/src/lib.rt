//! What a client goes on by: when a record of it goes out again, and that it is never stuck.
#![tactic(auto)]

mod laws;

pub use laws::{going_law, moment_law, pace_law};
