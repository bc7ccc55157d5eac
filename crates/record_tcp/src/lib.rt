//! The network over TCP (RFC 5531, section 11): the calls of the system that a link stands on.
#![tactic(auto)]

mod host;
mod network;
mod socket;

pub use host::TcpHost;
pub use network::TcpNetwork;
pub use socket::Socket;
