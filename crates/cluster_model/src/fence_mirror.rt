//! A fence at one mirror.

use crate::call_stage::CallStage;
use crate::ids::MirrorId;
use crate::phase::LeftCause;
use crate::tick::Tick;

/// One mirror in a fence: the ctime last seen there, how often a SETATTR of this fence found another one and did not
/// show the fresh uid, and where its SETATTR stands.
#[derive(Clone, Copy, Debug, Default, PartialEq, Eq)]
pub struct FenceMirror {
    pub id: MirrorId,
    pub seen: Tick,
    pub unsynced: u32,
    pub stage: CallStage,
}

/// What an answer or a timeout comes to in a fence.
#[derive(Clone, Copy, Debug, PartialEq, Eq)]
pub enum FenceStep {
    /// No call of this number is outstanding in the fence.
    Stranger,
    /// The mirror belongs to the fresh uid.
    Acked,
    /// It goes on: a call waits to be sent, or is to be sent again under its number.
    Again,
    /// The mirror is to be given up, or kept where it is the last live one.
    Failed { id: MirrorId, cause: LeftCause },
}
