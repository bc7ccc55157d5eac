//! How many machines a cluster has.

/// How many machines a cluster has, and how many mirrors each of its files is to have.
#[derive(Clone, Copy, Debug, PartialEq, Eq)]
pub struct ClusterSizes {
    /// The data servers, 1 to 16.
    pub servers: u32,
    /// The mirrors of a file, 1 to 4, and no more than there are data servers.
    pub mirrors: u32,
    /// The clients, 1 to 256.
    pub clients: u32,
}
