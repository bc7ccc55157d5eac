//! A recall that is under way, and what its calls come to.

use cluster_model::{Cred, FileId};
use ff_xdr::NoMemory;
use thiserror::Error;

/// A recall is given up so many seconds after it was asked.
pub const RECALL_TIME: u64 = 90;

/// Where the callback of a recall stands.
#[derive(Clone, Copy, Debug, Default, PartialEq, Eq)]
pub enum RecallStage {
    /// It waits to be sent.
    #[default]
    Waits,
    /// It is outstanding under this number, and timed out so often, at most twice.
    Out { xid: u32, timeouts: u32 },
    /// Its answer did not do: it waits for the next tick.
    Later,
    /// The client agreed: its return is awaited.
    Agreed,
}

/// A recall of the layout of a file, under the uid of its period: whose layout it is, and when it was asked, in seconds.
#[derive(Clone, Copy, Debug, PartialEq, Eq)]
pub struct Recall {
    pub file: FileId,
    pub cred: Cred,
    pub client: u64,
    pub asked: u64,
    pub stage: RecallStage,
}

/// A callback that is to go to a client, under a number of the metadata server's own calls.
#[derive(Clone, Copy, Debug, PartialEq, Eq)]
pub struct RecallCall {
    pub file: FileId,
    pub cred: Cred,
    pub client: u64,
    pub xid: u32,
}

/// Why a recall does not begin. Nothing has changed then.
#[derive(Clone, Copy, Debug, PartialEq, Eq, Error)]
pub enum AskFault {
    /// One of this grant is under way.
    #[error("a recall of this grant is under way")]
    Asked,
    #[error(transparent)]
    NoMemory(#[from] NoMemory),
}

/// What an answer or a timeout comes to.
#[derive(Clone, Copy, Debug, PartialEq, Eq)]
pub enum Outcome {
    /// No callback of this number is outstanding.
    Stranger,
    /// It goes on: behind a timeout the same record is to be sent again; behind an answer another callback waits for the
    /// next tick.
    Waiting,
    /// The client is to return its layout.
    Agreed,
    /// The client knows of no such layout. The recall is over.
    NoLayout(FileId, Cred),
    /// Its callback timed out for the third time. The recall is over.
    Expired(FileId, Cred),
}
