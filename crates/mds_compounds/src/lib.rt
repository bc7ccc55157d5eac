//! How a metadata server runs a compound: its first operation, one operation after the other, and its reply (RFC 8881, sections
//! 2.10.6, 15.1, 16.2 and 18.46).
#![tactic(auto)]

mod begin;
mod finish;
mod operate;
mod sequence;
mod walk;

pub use begin::run_compound;
pub use walk::go_on;
