//! What EXCHANGE_ID and CREATE_SESSION answer.

use nfs4_types::SessionId;
use thiserror::Error;

/// A client's record, as EXCHANGE_ID gives it (RFC 8881, section 18.35).
#[derive(Clone, Copy, Debug, PartialEq, Eq)]
pub struct Exchanged {
    /// The client's id.
    pub client: u64,
    /// The number of the client's next CREATE_SESSION.
    pub sequence: u32,
    /// The record is confirmed.
    pub confirmed: bool,
}

/// Why EXCHANGE_ID gives no record.
#[derive(Clone, Copy, Debug, PartialEq, Eq, Error)]
pub enum IdFault {
    /// 256 owners are known, and this one is not among them; or a new record is due, and the numbers of
    /// clients are spent.
    #[error("too many owners are known, or the numbers of clients are spent")]
    Full,
    /// Memory was wanted.
    #[error("memory was wanted")]
    NoMemory,
}

/// A session, as CREATE_SESSION gives it (RFC 8881, section 18.36).
#[derive(Clone, Copy, Debug, PartialEq, Eq)]
pub struct Created {
    pub session: SessionId,
    /// The id that the client had before its restart, which is gone with its sessions.
    pub gone: Option<u64>,
    /// The call came before, and nothing was done.
    pub replayed: bool,
}

/// Why CREATE_SESSION gives no session.
#[derive(Clone, Copy, Debug, PartialEq, Eq, Error)]
pub enum SessionFault {
    /// The client's id is unknown: STALE_CLIENTID.
    #[error("the client's id is unknown")]
    StaleClient,
    /// The number is neither the record's next nor that of the call that made its last session:
    /// SEQ_MISORDERED.
    #[error("the number is neither the next nor the last")]
    Misordered,
    /// A session is due, and the client has four, or the numbers of sessions are spent.
    #[error("the client has four sessions, or the numbers of sessions are spent")]
    Full,
    /// Memory was wanted.
    #[error("memory was wanted")]
    NoMemory,
}
