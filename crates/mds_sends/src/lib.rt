//! Which calls of a metadata server go out at the end of an event, and in which order: by file, then by the place of the mirror in
//! the live list (RFC 8435, section 2.2; RFC 8881, section 20.3; RFC 1813, section 3.3).
#![tactic(auto)]

mod all;
mod kept;
mod next;
mod own;
mod reads;
mod recalls;
mod send;

pub use all::{call_all, call_due};
pub use kept::{NumberedCall, kept_calls};
