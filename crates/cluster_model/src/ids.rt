//! Who and what takes part.

use crate::tick::Tick;

/// A machine: the metadata server, a data server or a client, the latter two by number.
#[derive(Clone, Copy, Debug, PartialEq, Eq)]
pub enum NodeId {
    /// The metadata server.
    Mds,
    /// A data server.
    Server(u32),
    /// A client.
    Client(u32),
}

/// A file of the cluster, by its number at the metadata server, from 1.
#[derive(Clone, Copy, Debug, PartialEq, Eq)]
pub struct FileId(pub u32);

/// A synthetic user: the uid that a write layout carries (RFC 8435, section 2.2).
#[derive(Clone, Copy, Debug, PartialEq, Eq)]
pub struct Cred(pub u32);

/// One copy of a file's bytes: the data server that has it, and the file's number there.
#[derive(Clone, Copy, Debug, Default, PartialEq, Eq)]
pub struct MirrorId {
    /// The number of the data server, from 1.
    pub server: u32,
    /// The fileid there (RFC 1813, section 2.5).
    pub fileid: u64,
}

/// A mirror, and the ctime that was last seen there.
#[derive(Clone, Copy, Debug, Default, PartialEq, Eq)]
pub struct Mirror {
    pub id: MirrorId,
    pub seen: Tick,
}
