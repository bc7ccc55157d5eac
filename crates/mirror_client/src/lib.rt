//! A client of the cluster: it writes a file to all of its mirrors under a layout (RFC 8881, RFC 8435).
#![tactic(auto)]

mod client;
mod events;
mod laws;
mod outstanding;
mod receive;
mod replies;
mod rogue;
mod worked;

pub use client::Client;
pub use laws::late_law;
pub use worked::{worked_client_runs, worked_client_ways};
