//! A file of a data server: its bytes, stable or pending, its owner and its times, and what is done to it
//! (RFC 1813).
#![tactic(auto)]

mod content;
mod file;
mod keeping;
mod part;

pub use file::{DataFile, times_set};
pub use keeping::Kept;
pub use part::FilePart;
