//! What every part of the cluster speaks of: machines, mirrors, moments, the entries of the journal,
//! and what is done to a data file.
#![tactic(auto)]

mod answer;
mod call_stage;
mod change;
mod ds_call;
mod entry;
mod fence_mirror;
mod ids;
mod laws;
mod layout_state;
mod limits;
mod mirror_ids;
mod mirrors;
mod outbox;
mod phase;
mod piece;
mod server_laws;
mod targets;
mod tick;

pub use answer::{FailCause, UserAnswer};
pub use call_stage::CallStage;
pub use change::{Changes, NewTime};
pub use ds_call::{DsCall, DsReply, Shown};
pub use entry::Entry;
pub use fence_mirror::{FenceMirror, FenceStep};
pub use ids::{Cred, FileId, Mirror, MirrorId, NodeId};
pub use laws::{commits, guards, overlays, stable_times, writes};
pub use layout_state::{CopyKind, FenceEnd, LayoutPhase, LayoutState, Reported};
pub use limits::{
    FILE_MODE, FIRST_UID, MAX_BOOT, MAX_FILE, MAX_READ, MAX_TICKS, MAX_TIMEOUTS, MAX_TOTAL,
    MAX_UNSYNCED, PIECE_SIZE, SERVERFAULT, SPARE_UIDS,
};
pub use mirror_ids::MirrorIds;
pub use mirrors::Mirrors;
pub use outbox::Outbox;
pub use phase::{EndCause, LeftCause, Phase};
pub use piece::{Piece, Pieces};
pub use server_laws::{server_effects, server_guards, server_restarts, server_runs};
pub use targets::{SwappedIn, Targets};
pub use tick::{Tick, Times};
