//! A log of records on a disk, each behind a gate byte, so that a crash leaves a record whole or not at all.
#![tactic(auto)]

mod appending;
mod gated;
mod reading;
mod staging;

pub use appending::{append, make_ready};
pub use gated::Gated;
pub use reading::{Found, find_gate};
pub use staging::{LogEnd, clear, find_end, seal, stage};
