//! What a request comes to.

use nfs4_types::{SessionId, Stat4};

/// A request that takes effect: the slot on which it is in progress, and its number.
#[derive(Clone, Copy, Debug, PartialEq, Eq)]
pub struct SlotPass {
    pub session: SessionId,
    pub slot: u32,
    pub sequence: u32,
}

/// What SEQUENCE comes to (RFC 8881, section 18.46).
#[derive(Clone, Copy, Debug, PartialEq, Eq)]
pub enum Begin<'b> {
    /// The request takes effect, and is in progress until `Sessions::finish`.
    New { client: u64, slot: SlotPass },
    /// The request came before, and has this reply.
    Replay(&'b [u8]),
    /// BADSESSION, BADSLOT, SEQ_MISORDERED, DELAY or RETRY_UNCACHED_REP.
    Refused(Stat4),
}
