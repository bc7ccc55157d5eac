//! What a writer keeps of its writes and calls.

use crate::write_bytes::WriteBytes;
use cluster_model::LeftCause;

/// A write that was taken: its first byte's place in the file, and its bytes.
#[derive(Debug, Drop)]
pub struct TakenWrite {
    pub at: u64,
    pub bytes: WriteBytes,
}

/// An OK answer to a WRITE: which of the taken writes, counted from 0, and the answer's verifier.
#[derive(Clone, Copy, Debug, PartialEq, Eq)]
pub struct WriteAnswer {
    pub write: usize,
    pub verifier: u64,
}

/// The call under way at a mirror, its number, and how often it timed out.
#[derive(Clone, Copy, Debug, PartialEq, Eq)]
pub enum WriterCall {
    NoCall,
    OutWrite {
        xid: u32,
        write: usize,
        timeouts: u32,
    },
    OutCommit {
        xid: u32,
        timeouts: u32,
    },
}

/// What goes to a mirror next: the WRITE of a taken write, or a COMMIT.
#[derive(Clone, Copy, Debug, PartialEq, Eq)]
pub enum NextCall {
    SendsWrite(usize),
    SendsCommit,
}

/// What an answer or a timeout comes to at one mirror.
#[derive(Clone, Copy, Debug, PartialEq, Eq)]
pub enum MirrorOutcome {
    /// No call is out.
    Stranger,
    Waiting,
    Failed(LeftCause),
    /// The status says that the layout is no more.
    Fenced(u32),
    /// A COMMIT was answered OK.
    CommitOk,
}
