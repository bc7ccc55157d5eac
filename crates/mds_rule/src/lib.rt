//! The rule of a metadata server.
#![tactic(auto)]

mod waiter;
mod worked;

pub use waiter::Waiter;
pub use worked::{more_conversations, worked_conversations, worked_records, worked_timeouts};
