//! What a metadata server's reply comes to for its client, without how it is spelled.

use client_file_calls::{LayoutGrant, OpenFile};
use device_addr::NetAddr;
use nfs4_types::{SessionId, Stat4};

/// What the SEQUENCE of a request came to (RFC 8881, section 18.46.3).
#[derive(Clone, Copy, Debug, PartialEq, Eq)]
pub enum SlotReport {
    /// OK: the request took effect on its slot, now or before.
    Taken,
    /// NFS4ERR_RETRY_UNCACHED_REP: it took effect before, and its reply was not kept.
    Uncached,
    /// NFS4ERR_DELAY: the same request is to be sent again later.
    Delayed,
    /// Another status, or no result of a SEQUENCE.
    Unknown,
}

/// What a request came to.
#[derive(Clone, Copy, Debug, PartialEq, Eq)]
pub enum MdsAnswer<'a> {
    /// The client's number, and that of its next CREATE_SESSION.
    Client { clientid: u64, sequence: u32 },
    /// The session.
    Session(SessionId),
    /// RECLAIM_COMPLETE is done.
    Complete,
    /// The file is open.
    Opened(OpenFile),
    /// The layout was granted.
    Granted(LayoutGrant),
    /// The addresses of the data servers that were asked for, in that order; the filled places come
    /// first.
    Devices([Option<NetAddr>; 4]),
    /// The bytes are written, and stable.
    Written,
    /// The bytes that were read, and whether the file ends behind them.
    Bytes { eof: bool, bytes: &'a [u8] },
    /// The layout is given back.
    Returned,
    /// The lease is renewed.
    Renewed,
    /// It was not done, by this status.
    Refused(Stat4),
}

/// What a reply comes to.
#[derive(Clone, Copy, Debug, PartialEq, Eq)]
pub struct MdsReply<'a> {
    pub slot: SlotReport,
    pub answer: MdsAnswer<'a>,
}
