//! Exact readings of the two calls that read a file, and the law of reads over a journal with its packets.
#![tactic(auto)]

mod client_reads;
mod laws;
mod read_call;
mod server_reads;

pub use client_reads::client_read;
pub use laws::{worked_reads, worked_records};
pub use read_call::ReadCall;
pub use server_reads::server_read;
