//! How far a client is with its metadata server.

use nfs4_session::CbSlot;
use nfs4_types::SessionId;

/// A session of the client (RFC 8881, section 2.10).
#[derive(Clone, Copy, Debug, PartialEq, Eq)]
pub struct OwnSession {
    pub id: SessionId,
    /// The number of the next request on slot 0.
    pub next: u32,
    /// RECLAIM_COMPLETE is done.
    pub is_complete: bool,
    /// The slot of its callbacks.
    pub callbacks: CbSlot,
    /// When a SEQUENCE was last answered OK or RETRY_UNCACHED_REP, in seconds.
    pub renewed: Option<u64>,
}

/// How far a client is with its metadata server.
#[derive(Clone, Copy, Debug, PartialEq, Eq)]
pub enum Tie {
    /// The metadata server gave it no number.
    NoClient,
    /// It has a number; its next CREATE_SESSION has this sequence number.
    HasClient { clientid: u64, sequence: u32 },
    HasSession(OwnSession),
}
