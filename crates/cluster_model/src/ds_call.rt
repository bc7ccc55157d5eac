//! The calls to a data server and its replies, without how they are spelled. Whoever sends a call adds who
//! calls.

use crate::ids::Cred;
use crate::tick::Tick;

/// What a reply says of a file: its owner, its ctime, and its size in bytes (RFC 1813, section 2.5,
/// `fattr3`).
#[derive(Clone, Copy, Debug, PartialEq, Eq)]
pub struct Shown {
    pub owner: Cred,
    pub seen: Tick,
    pub size: u64,
}

/// A call of one of the five procedures by which a cluster uses its data servers (RFC 1813, section 3.3).
#[derive(Clone, Copy, Debug, PartialEq, Eq)]
pub enum DsCall<'a> {
    /// CREATE, UNCHECKED, in the root, under the name that has this number, with the user and the group
    /// and mode 0640.
    Create {
        name: u64,
        owner: Cred,
    },
    /// SETATTR of the user and the group, where the ctime is the guard.
    SetAttr {
        fileid: u64,
        owner: Cred,
        guard: Tick,
    },
    /// WRITE from the byte `at` on, FILE_SYNC where it is synced and UNSTABLE else.
    Write {
        fileid: u64,
        at: u64,
        synced: bool,
        bytes: &'a [u8],
    },
    /// COMMIT of the whole file.
    Commit {
        fileid: u64,
    },
    /// READ of at most `count` bytes from the byte `at` on.
    Read {
        fileid: u64,
        at: u64,
        count: u32,
    },
}

/// What a data server replies: the first five to the five calls in order, that they were done.
#[derive(Clone, Copy, Debug, PartialEq, Eq)]
pub enum DsReply<'a> {
    Created {
        fileid: u64,
        shown: Shown,
    },
    Set {
        shown: Option<Shown>,
    },
    Written {
        shown: Option<Shown>,
        verifier: u64,
    },
    Committed {
        shown: Option<Shown>,
        verifier: u64,
    },
    Bytes {
        shown: Option<Shown>,
        eof: bool,
        bytes: &'a [u8],
    },
    /// The guard of a SETATTR was not the ctime.
    NotSync {
        shown: Shown,
    },
    /// Another status than OK, by its number (RFC 1813, section 2.6).
    Failed {
        status: u32,
        shown: Option<Shown>,
    },
}
