//! Where a callback goes.

use cluster_model::NodeId;
use nfs4_types::SessionId;

/// A callback to a client (RFC 8881, sections 2.10.3.1 and 20.9).
#[derive(Clone, Copy, Debug, PartialEq, Eq)]
pub struct BackCall {
    /// The session of its client that was made or bound last.
    pub session: SessionId,
    /// Where the session's last record came from.
    pub node: NodeId,
    /// The number of the client's program of callbacks.
    pub program: u32,
    /// The number of the callback on its slot, which is used by this one.
    pub sequence: u32,
}
