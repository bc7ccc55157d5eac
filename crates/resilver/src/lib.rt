//! Copies: a file's bytes are read at one live mirror and written to fresh ones (RFC 8435, section 8.3).
#![tactic(auto)]

mod call;
mod copy;
mod laws;
mod target;
mod targets;

pub use call::{NextCall, SentCall};
pub use copy::Copy;
pub use copy_rule::{CopyStep, CopyTarget, Target};
pub use laws::copy_law;
