//! What a copy is of, and what an answer or a timeout comes to.

use cluster_model::{CallStage, LeftCause, Mirror, MirrorId};

/// Where a fresh file is to be made, under the name of which number, and the live mirror in whose place it is to come;
/// with none it is to join the others.
#[derive(Clone, Copy, Debug, Default, PartialEq, Eq)]
pub struct Target {
    pub server: u32,
    pub name: u64,
    pub replaced: Option<MirrorId>,
}

/// One target of a copy that is under way: the file that was made, with the ctime last seen there, and where the call to
/// it stands: its CREATE, and once it is made the WRITE of the piece in hand.
#[derive(Clone, Copy, Debug, Default, PartialEq, Eq)]
pub struct CopyTarget {
    pub server: u32,
    pub name: u64,
    pub replaced: Option<MirrorId>,
    pub made: Option<Mirror>,
    pub stage: CallStage,
}

/// What an answer or a timeout comes to in a copy.
#[derive(Clone, Copy, Debug, PartialEq, Eq)]
pub enum CopyStep {
    /// No call of this number is outstanding in the copy.
    Stranger,
    /// It goes on. Behind a timeout the same record is to be sent again, unless its call is kept until the next tick.
    Waiting,
    /// The READ of the source failed: an error, or the third timeout.
    SourceFailed(LeftCause),
    /// A target failed and is thrown away, so the mirror that it was to replace is to leave.
    TargetFailed {
        server: u32,
        replaced: Option<MirrorId>,
        cause: LeftCause,
    },
    /// Each target that is left holds the source's bytes.
    Done,
}
