//! What the answers to the calls of a fence bring.

ghost use Rattle.std.specs.Prelude.{◌≡◌, ◌≤◌, ◌+◌, [], IfOk};
ghost use Rattle.std.specs.Vec.{vec_len, vec_capacity};
ghost use Rattle.cluster_model.specs.declared.phase.Phase.TheVariants as name;
ghost use Rattle.cluster_model.specs.Phases.{phase_of};
ghost use Rattle.cluster_model.specs.DsCalls.{plain_ds_reply};
ghost use Rattle.file_rule.specs.MdsFiles.{shown_by_set, fence_stepped, fence_answered, fenced_on};
ghost use Rattle.mds_activity.specs.Activities.{seen_at_id, Took, FitsPhase};

use crate::activity::Activity;
use cluster_model::{CallStage, CopyKind, DsReply, Entry, FileId, MirrorId, Phase, Shown};
use fence::{Fence, FenceStep};
use ff_xdr::NoMemory;
use layout_state::FileState;
use mds_rows::{finish_fence, lose};
use std::alloc::Global;

/// Room for the names of four mirrors.
pub fn room_for_ids(alloc: Global) -> Result<Vec<MirrorId>, NoMemory>
    ensures empty { IfOk result (λ room. room.items ≡ []) }
    ensures four { IfOk result (λ room. 4 ≤ vec_capacity room) }
{
    let mut room = Vec::new(alloc);
    room.reserve(4)?;
    Ok(room)
}

/// An answer to a SETATTR of the fence.
pub fn answer_fence(
    file: FileId,
    layout: &mut FileState,
    fence: Fence,
    xid: u32,
    reply: &DsReply<'_>,
    fenced: Vec<MirrorId>,
    free: Vec<MirrorId>,
    entries: &mut Vec<Entry>,
) -> Activity
    requires fencing { phase_of layout.old.phase ≡ name.Fencing }
    requires fenced_empty { fenced.items ≡ [] }
    requires fenced_four { 4 ≤ vec_capacity fenced }
    requires free_empty { free.items ≡ [] }
    requires free_four { 4 ≤ vec_capacity free }
    requires room { vec_len entries.old + 3 ≤ vec_capacity entries.old }
    ensures takes { Took (fence_answered file layout.old fence xid (plain_ds_reply reply.now)) entries.old.items layout.new result entries.new.items }
    ensures fits { FitsPhase layout.new result }
    ensures wanted { layout.new.wanted ≡ layout.old.wanted }
{
    see_at(layout, fence.mirror_out(xid), shown_by_set(reply));
    let mut fence = fence;
    let step = fence.on_reply(xid, reply);
    step_fence(file, layout, fence, step, fenced, free, entries)
}

/// The ctime that an answer to a SETATTR shows.
fn shown_by_set(reply: &DsReply<'_>) -> Option<Shown>
    ensures { result ≡ shown_by_set (plain_ds_reply reply.now) }
{
    match *reply {
        DsReply::Set { shown } => shown,
        DsReply::NotSync { shown } => Some(shown),
        DsReply::Failed { shown, .. } => shown,
        _ => None,
    }
}

/// An answer shows the ctime at a mirror, or does not.
fn see_at(layout: &mut FileState, mirror: Option<MirrorId>, shown: Option<Shown>)
    ensures { layout.new ≡ seen_at_id layout.old mirror shown }
{
    let Some(id) = mirror else {
        return;
    };
    let Some(shown) = shown else {
        return;
    };
    layout.saw(id, shown.seen);
}

/// What comes of a step of the fence.
pub fn step_fence(
    file: FileId,
    layout: &mut FileState,
    fence: Fence,
    step: FenceStep,
    fenced: Vec<MirrorId>,
    free: Vec<MirrorId>,
    entries: &mut Vec<Entry>,
) -> Activity
    requires fencing { phase_of layout.old.phase ≡ name.Fencing }
    requires fenced_empty { fenced.items ≡ [] }
    requires fenced_four { 4 ≤ vec_capacity fenced }
    requires free_empty { free.items ≡ [] }
    requires free_four { 4 ≤ vec_capacity free }
    requires room { vec_len entries.old + 3 ≤ vec_capacity entries.old }
    ensures takes { Took (fence_stepped file layout.old fence step) entries.old.items layout.new result entries.new.items }
    ensures fits { FitsPhase layout.new result }
    ensures wanted { layout.new.wanted ≡ layout.old.wanted }
{
    match step {
        FenceStep::Stranger | FenceStep::Again => Activity::Fences(fence),
        FenceStep::Acked => go_on_fencing(file, layout, fence, fenced, free, entries),
        FenceStep::Failed { id, cause } => {
            if !lose(file, layout, id, cause, entries) {
                return Activity::Fences(fence);
            }
            let mut fence = fence;
            fence.drop_mirror(id);
            go_on_fencing(file, layout, fence, fenced, free, entries)
        }
    }
}

/// The fence is done, or goes on.
fn go_on_fencing(
    file: FileId,
    layout: &mut FileState,
    fence: Fence,
    fenced: Vec<MirrorId>,
    free: Vec<MirrorId>,
    entries: &mut Vec<Entry>,
) -> Activity
    requires fencing { phase_of layout.old.phase ≡ name.Fencing }
    requires fenced_empty { fenced.items ≡ [] }
    requires fenced_four { 4 ≤ vec_capacity fenced }
    requires free_empty { free.items ≡ [] }
    requires free_four { 4 ≤ vec_capacity free }
    requires room { vec_len entries.old + 2 ≤ vec_capacity entries.old }
    ensures takes { Took (fenced_on file layout.old fence) entries.old.items layout.new result entries.new.items }
    ensures fits { FitsPhase layout.new result }
    ensures wanted { layout.new.wanted ≡ layout.old.wanted }
{
    if !fence.done() {
        return Activity::Fences(fence);
    }
    finish_fence(file, layout, fenced, free, entries);
    match layout.phase() {
        Phase::Settling => Activity::Settles {
            copies: CopyKind::Replacing,
            stage: CallStage::Waits,
        },
        _ => Activity::Idle,
    }
}
