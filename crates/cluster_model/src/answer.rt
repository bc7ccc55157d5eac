//! What a client answers to its user.

use crate::ids::FileId;
use ff_xdr::Data;

/// The answer to a request of a user.
#[derive(Debug, Drop)]
pub enum UserAnswer {
    /// The file is open.
    Opened(FileId),
    /// The write through the metadata server is done.
    Written,
    /// So many writes were told as committed since the last such answer.
    Committed { writes: u32 },
    /// The bytes that were read, and whether the file ends behind them.
    Bytes { eof: bool, bytes: Data },
    /// The layout was returned.
    Returned,
    /// The request was not done.
    Failed(FailCause),
}

/// Why a request of a user was not done.
#[derive(Clone, Copy, Debug, PartialEq, Eq)]
pub enum FailCause {
    /// The layout was taken away.
    Revoked,
    /// Every mirror of the layout failed.
    AllMirrors,
    /// The metadata server refused it, by this status (RFC 8881, section 15.1).
    Refused(u32),
}
