//! Which machines a script has.

use cluster_script::ClusterSizes;

/// Which machines a script has.
#[derive(Clone, Copy, Debug, PartialEq, Eq)]
pub enum Setup {
    /// One data server.
    Bare,
    /// A cluster.
    Cluster(ClusterSizes),
}
