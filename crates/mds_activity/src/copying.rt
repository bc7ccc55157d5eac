//! What the answers to the calls of a copy bring.

ghost use Rattle.std.specs.Prelude.{◌≡◌, ◌≤◌, ◌+◌, [], true, length, IfOk};
ghost use Rattle.std.specs.Vec.{vec_len, vec_capacity};
ghost use Rattle.cluster_model.specs.declared.layout_state.LayoutPhase.TheVariants as phase;
ghost use Rattle.cluster_model.specs.Phases.{can_swap_all, mirror_left};
ghost use Rattle.cluster_model.specs.DsCalls.{plain_ds_reply};
ghost use Rattle.copy_rule.specs.Copies.{on_timeout};
ghost use Rattle.resilver.specs.Calls.{TakesAnswer};
ghost use Rattle.file_rule.specs.MdsFiles.{Copies, source_left, copied_by, copied_on, copy_stepped};
ghost use Rattle.mds_activity.specs.Activities.{Took, TookDrawing, FitsPhase, IsCopying};
ghost use Rattle.mds_activity.specs.Targets.{MayLeave, LosesTarget};
ghost use Rattle.mds_rows.specs.Draws.{HasFresh};
ghost use Rattle.mds_rows.specs.Rows.{HasRow};

use crate::activity::Activity;
use cluster_model::{
    CallStage, CopyKind, Cred, DsReply, Entry, FileId, LeftCause, MirrorId, Targets,
};
use fence::Fence;
use ff_xdr::NoMemory;
use file_rule::Fresh;
use layout_state::FileState;
use mds_rows::{lose, swap_in};
use resilver::{Copy, CopyStep};

/// What the answer to the call of this number comes to; where memory is wanted nothing has changed.
pub fn take_reply(
    layout: FileState,
    copier: Cred,
    copies: CopyKind,
    copy: &mut Copy,
    xid: u32,
    reply: &DsReply<'_>,
) -> Result<CopyStep, NoMemory>
    requires { IsCopying layout copier copies copy.old }
    ensures takes { TakesAnswer copy.old xid (plain_ds_reply reply.now) result copy.new }
    ensures copying { IsCopying layout copier copies copy.new }
    ensures loses { IfOk result (λ step. LosesTarget layout.live copy.new.targets step) }
{
    copy.on_reply(xid, reply)
}

/// What a timeout of the call of this number comes to.
pub fn take_timeout(
    layout: FileState,
    copier: Cred,
    copies: CopyKind,
    copy: &mut Copy,
    xid: u32,
) -> CopyStep
    requires { IsCopying layout copier copies copy.old }
    ensures takes { record { copy = copy.new; step = result } ≡ on_timeout copy.old xid }
    ensures copying { IsCopying layout copier copies copy.new }
    ensures loses { LosesTarget layout.live copy.new.targets result }
{
    copy.on_timeout(xid)
}

/// What comes of a step of the copy.
pub fn step_copy(
    file: FileId,
    layout: &mut FileState,
    copier: Cred,
    copies: CopyKind,
    copy: Copy,
    step: CopyStep,
    room: Vec<MirrorId>,
    fresh: &mut Fresh,
    entries: &mut Vec<Entry>,
) -> Activity
    requires drawn { HasFresh fresh.old }
    requires copying { IsCopying layout.old copier copies copy }
    requires loses { LosesTarget layout.old.live copy.targets step }
    requires empty { room.items ≡ [] }
    requires four { 4 ≤ vec_capacity room }
    requires room { vec_len entries.old + 5 ≤ vec_capacity entries.old }
    ensures takes { TookDrawing (copy_stepped file layout.old copy fresh.old step) fresh.old entries.old.items layout.new result fresh.new entries.new.items }
    ensures fits { FitsPhase layout.new result }
    ensures wanted { layout.new.wanted ≡ layout.old.wanted }
{
    match step {
        CopyStep::Stranger | CopyStep::Waiting => Activity::Copies {
            copier,
            copies,
            copy,
        },
        CopyStep::SourceFailed(cause) => {
            fail_source(file, layout, copier, copies, copy, cause, entries)
        }
        CopyStep::TargetFailed {
            replaced: Some(id),
            cause,
            ..
        } => {
            lose_replaced(file, layout, copier, copies, &copy, id, cause, entries);
            go_on_copying(file, layout, copier, copies, copy, room, fresh, entries)
        }
        CopyStep::TargetFailed { replaced: None, .. } | CopyStep::Done => go_on_copying(
            file, layout, copier, copies, copy, room, fresh, entries,
        ),
    }
}

/// The READ failed: the source leaves and the next mirror is to be committed, unless it is the last one.
fn fail_source(
    file: FileId,
    layout: &mut FileState,
    copier: Cred,
    copies: CopyKind,
    copy: Copy,
    cause: LeftCause,
    entries: &mut Vec<Entry>,
) -> Activity
    requires copying { IsCopying layout.old copier copies copy }
    requires room { vec_len entries.old + 1 ≤ vec_capacity entries.old }
    ensures takes { Took (source_left file layout.old layout.old.live cause (Copies copy)) entries.old.items layout.new result entries.new.items }
    ensures fits { FitsPhase layout.new result }
    ensures wanted { layout.new.wanted ≡ layout.old.wanted }
{
    let Some(source) = layout.live().get(0) else {
        return Activity::Copies {
            copier,
            copies,
            copy,
        };
    };
    if !lose(file, layout, source.id, cause, entries) {
        return Activity::Copies {
            copier,
            copies,
            copy,
        };
    }
    Activity::Settles {
        copies,
        stage: CallStage::Waits,
    }
}

/// The mirror that a target was to replace leaves: it is neither the first nor the last one.
fn lose_replaced(
    file: FileId,
    layout: &mut FileState,
    copier: Cred,
    copies: CopyKind,
    copy: &Copy,
    id: MirrorId,
    cause: LeftCause,
    entries: &mut Vec<Entry>,
)
    requires copying { IsCopying layout.old copier copies copy.now }
    requires leaves { MayLeave layout.old.live copy.now.targets id }
    requires room { vec_len entries.old + 1 ≤ vec_capacity entries.old }
    ensures row { HasRow (mirror_left file layout.old id cause) entries.old.items layout.new entries.new.items }
    ensures len { vec_len entries.new ≤ vec_len entries.old + 1 }
    ensures capacity { vec_capacity entries.new ≡ vec_capacity entries.old }
    ensures copying { IsCopying layout.new copier copies copy.now }
    ensures wanted { layout.new.wanted ≡ layout.old.wanted }
{
    lose(file, layout, id, cause, entries);
}

/// The copy is done, or goes on.
fn go_on_copying(
    file: FileId,
    layout: &mut FileState,
    copier: Cred,
    copies: CopyKind,
    copy: Copy,
    room: Vec<MirrorId>,
    fresh: &mut Fresh,
    entries: &mut Vec<Entry>,
) -> Activity
    requires drawn { HasFresh fresh.old }
    requires copying { IsCopying layout.old copier copies copy }
    requires empty { room.items ≡ [] }
    requires four { 4 ≤ vec_capacity room }
    requires room { vec_len entries.old + 4 ≤ vec_capacity entries.old }
    ensures takes { TookDrawing (copied_on file layout.old copy fresh.old) fresh.old entries.old.items layout.new result fresh.new entries.new.items }
    ensures fits { FitsPhase layout.new result }
    ensures wanted { layout.new.wanted ≡ layout.old.wanted }
{
    let Some(targets) = copy.outcome() else {
        return Activity::Copies {
            copier,
            copies,
            copy,
        };
    };
    finish_copy(file, layout, copier, copies, &targets, room, fresh, entries)
}

/// The targets that are left come into the live list, and a fence begins; with none left the file is free.
fn finish_copy(
    file: FileId,
    layout: &mut FileState,
    copier: Cred,
    copies: CopyKind,
    targets: &Targets,
    room: Vec<MirrorId>,
    fresh: &mut Fresh,
    entries: &mut Vec<Entry>,
) -> Activity
    requires drawn { HasFresh fresh.old }
    requires copying { layout.old.phase ≡ phase.Copying copier copies }
    requires fits { can_swap_all targets.now layout.old.live ≡ true }
    requires few { length targets.now ≤ 4 }
    requires empty { room.items ≡ [] }
    requires four { 4 ≤ vec_capacity room }
    requires room { vec_len entries.old + 4 ≤ vec_capacity entries.old }
    ensures takes { TookDrawing (copied_by file layout.old copier targets.now fresh.old) fresh.old entries.old.items layout.new result fresh.new entries.new.items }
    ensures fits { FitsPhase layout.new result }
    ensures wanted { layout.new.wanted ≡ layout.old.wanted }
{
    let next = Cred(fresh.uid);
    swap_in(file, layout, copier, copies, targets, next, room, entries);
    if targets.as_slice().is_empty() {
        return Activity::Idle;
    }
    fresh.uid += 1;
    Activity::Fences(Fence::start(layout.live(), next))
}
