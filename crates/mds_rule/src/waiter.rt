//! Who waits for the answer to a call.

use cluster_model::FileId;

/// Who waits for the answer to a call of the metadata server.
#[derive(Clone, Copy, Debug, PartialEq, Eq)]
pub enum Waiter {
    /// What the file has under way: its creation, its fence, what comes behind a dirty end, its copy.
    ForFile(FileId),
    /// A READ of the file, for a compound that waits.
    ForRead(FileId),
    /// The WRITE of the metadata server's own to the file, for a compound that waits.
    ForWrite(FileId),
    /// A layout's recall.
    ForRecall,
}
