//! What the calls of a writer come to.

use cluster_model::{LeftCause, MirrorId};

/// Whether a write is taken.
#[derive(Clone, Copy, Debug, PartialEq, Eq)]
pub enum WriteStart {
    /// It is to be sent to every mirror.
    Taken,
    /// A taken write has one of its places. Nothing has changed.
    Overlap,
    /// Memory was wanted. Nothing has changed.
    NoMemory,
}

/// What an answer or a timeout comes to.
#[derive(Clone, Copy, Debug, PartialEq, Eq)]
pub enum WriterStep {
    /// No call of this number is outstanding in the writer. Nothing has changed.
    Stranger,
    /// The writer goes on. After a timeout the same record is to be sent again.
    Waiting,
    /// The mirror has failed: another answer than OK, ACCES and STALE, or the third timeout of a call.
    Failed { id: MirrorId, cause: LeftCause },
    /// The mirror answered ACCES or STALE: the layout is no more. No call goes out from now on.
    Fenced { id: MirrorId, status: u32 },
    /// Each mirror that has not failed is committed.
    Committed,
}
