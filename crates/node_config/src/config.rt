//! The configuration of a node.

use device_addr::NetAddr;

/// The most data servers of a configuration.
pub const MAX_SERVERS: usize = 16;

/// The most mirrors of a file.
pub const MAX_MIRRORS: u32 = 4;

/// The largest number of a node.
pub const MAX_NUMBER: u32 = 256;

/// What a node is told at its start.
#[derive(Debug, Drop)]
pub struct Config {
    /// The addresses of the data servers, 1 to 16: that of server number 1 first.
    pub servers: Vec<NetAddr>,
    /// The address of the metadata server.
    pub mds: NetAddr,
    /// How many mirrors a file has: 1 to 4, and no more than there are data servers.
    pub mirrors: u32,
    /// The node's own number, 1 to 256.
    pub own: u32,
    /// How many arrivals the node takes before it ends, at least 1.
    pub turns: u32,
}
