//! A log in two files, of which one has it: it is renewed into the other, so that it grows no further than what it says.
#![tactic(auto)]

mod appending;
mod fault;
mod generation;
mod kept_log;
mod on_disks;
mod renewing;
mod side;

pub use fault::{LogCause, LogError};
pub use kept_log::KeptLog;
pub use on_disks::{GateLog, LogFault};
pub use side::Side;
