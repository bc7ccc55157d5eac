//! A server that keeps many connections over any network, those that it accepts and those that it makes:
//! which is accepted, read, written and closed, and which record is handed out next.
#![tactic(auto)]

mod flush;
mod laws;
mod memory_network;
mod network;
mod peers;
mod rounds;
mod server;

pub use laws::{calls_law, fair_law, server_law};
pub use memory_network::{MemoryHost, MemoryNetwork};
pub use network::{Host, Network, Refused};
pub use server::{MAX_CONNECTIONS, RecordServer};
