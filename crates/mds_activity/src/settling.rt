//! What the answers to the COMMIT of a source bring.

ghost use Rattle.std.specs.Prelude.{◌≡◌, ◌≤◌, ◌+◌, [], length, map, if◌then◌else◌};
ghost use Rattle.std.specs.Vec.{vec_len, vec_capacity};
ghost use Rattle.cluster_model.specs.declared.layout_state.LayoutPhase.TheVariants as phase;
ghost use Rattle.cluster_model.specs.declared.call_stage.CallStage.TheVariants as stage;
ghost use Rattle.cluster_model.specs.DsCalls.{plain_ds_reply};
ghost use Rattle.copy_rule.specs.Copies.{to_make, new_copy};
ghost use Rattle.file_rule.specs.MdsFiles.{Copies, shown_by_commit, seen_at_source, settled};
ghost use Rattle.mds_activity.specs.Activities.{plain_activity, LosesSource, TookDrawing, FitsPhase, commit_failed};
ghost use Rattle.mds_activity.specs.Targets.{CanAllComeIn};
ghost use Rattle.mds_rows.specs.Draws.{HasFresh};

use crate::activity::Activity;
use cluster_model::{
    CallStage, CopyKind, Cred, DsReply, Entry, FileId, LeftCause, Mirror, MirrorId, Phase,
    SERVERFAULT, Shown,
};
use copy_rule::Target;
use file_rule::Fresh;
use layout_state::FileState;
use mds_rows::{lose, plan_of, settle};
use resilver::Copy;
use std::alloc::Global;

/// The ctime that an answer to a COMMIT shows.
pub fn shown_by_commit(reply: &DsReply<'_>) -> Option<Shown>
    ensures { result ≡ shown_by_commit (plain_ds_reply reply.now) }
{
    match *reply {
        DsReply::Committed { shown, .. } => shown,
        DsReply::Failed { shown, .. } => shown,
        _ => None,
    }
}

/// An answer shows the ctime at the source, or does not.
pub fn see_at_source(layout: &mut FileState, shown: Option<Shown>)
    ensures { layout.new ≡ seen_at_source layout.old layout.old.live shown }
{
    let Some(source) = layout.live().get(0) else {
        return;
    };
    let Some(shown) = shown else {
        return;
    };
    layout.saw(source.id, shown.seen);
}

/// The source fails: it leaves, unless it is the last one; false then.
pub fn lose_source(
    file: FileId,
    layout: &mut FileState,
    copies: CopyKind,
    cause: LeftCause,
    entries: &mut Vec<Entry>,
) -> bool
    requires settling { layout.old.phase ≡ phase.Settling copies }
    requires room { vec_len entries.old + 1 ≤ vec_capacity entries.old }
    ensures loses { LosesSource file layout.old cause entries.old.items result layout.new entries.new.items }
    ensures settling { layout.new.phase ≡ phase.Settling copies }
    ensures wanted { layout.new.wanted ≡ layout.old.wanted }
{
    let Some(source) = layout.live().get(0) else {
        return false;
    };
    lose(file, layout, source.id, cause, entries)
}

/// The source is committed: the copy begins, or the file is free.
pub fn begin_copy(
    alloc: Global,
    file: FileId,
    layout: &mut FileState,
    copies: CopyKind,
    room: Vec<MirrorId>,
    fresh: &mut Fresh,
    entries: &mut Vec<Entry>,
) -> Activity
    requires drawn { HasFresh fresh.old }
    requires few { layout.old.wanted ≤ 4 }
    requires settling { layout.old.phase ≡ phase.Settling copies }
    requires empty { room.items ≡ [] }
    requires four { 4 ≤ vec_capacity room }
    requires room { vec_len entries.old + 1 ≤ vec_capacity entries.old }
    ensures takes { TookDrawing (settled file layout.old copies fresh.old) fresh.old entries.old.items layout.new result fresh.new entries.new.items }
    ensures fits { FitsPhase layout.new result }
    ensures wanted { layout.new.wanted ≡ layout.old.wanted }
{
    let copier = Cred(fresh.uid);
    let plan = plan_of(copies, layout, fresh);
    let source = layout.live().get(0).unwrap_or_default();
    settle(file, layout, copies, copier, room, entries);
    if let Phase::Free = layout.phase() {
        return Activity::Idle;
    }
    fresh.uid += 1;
    fresh.name += plan.len() as u64;
    copy_from(alloc, *layout, copies, copier, source, plan.as_slice())
}

/// The copy from this mirror, by this user, to the targets of a plan.
fn copy_from(
    alloc: Global,
    layout: FileState,
    copies: CopyKind,
    copier: Cred,
    source: Mirror,
    plan: &[Target],
) -> Activity
    requires few { length plan.now ≤ 4 }
    requires copying { layout.phase ≡ phase.Copying copier copies }
    requires fit { CanAllComeIn layout.live (map to_make plan.now) }
    ensures copy { plain_activity result ≡ Copies (new_copy source.id plan.now copier.0) }
    ensures fits { FitsPhase layout result }
{
    Activity::Copies {
        copier,
        copies,
        copy: Copy::start(alloc, source, plan, copier),
    }
}

/// Where the next COMMIT stands once the source left, or once it was kept.
pub fn after_loss(left: bool, kept: CallStage) -> CallStage
    ensures { result ≡ (if left then stage.Waits else kept) }
{
    if left { CallStage::Waits } else { kept }
}

/// Why an answer to a COMMIT is a failure of the source, if it is.
pub fn commit_failed(reply: &DsReply<'_>) -> Option<LeftCause>
    ensures { result ≡ commit_failed (plain_ds_reply reply.now) }
{
    match *reply {
        DsReply::Committed { .. } => None,
        DsReply::Failed { status, .. } => Some(LeftCause::Error(status)),
        _ => Some(LeftCause::Error(SERVERFAULT)),
    }
}
