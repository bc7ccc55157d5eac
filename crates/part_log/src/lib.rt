//! A log in two files, as rows play it.
#![tactic(auto)]

mod calls;
mod disks;
mod log_rows;

pub use disks::{Disks, DisksAtHand};
pub use log_rows::GateLogRows;
