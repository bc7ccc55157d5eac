//! A fence at one mirror.

ghost use Rattle.std.specs.Prelude.{◌≡◌};
ghost use Rattle.cluster_model.specs.DsCalls.{plain_ds_reply};
ghost use Rattle.cluster_model.specs.Fences.{to_fence, having_seen, acknowledged, failed_by, out_of_sync, answered, timed_out, at_tick, dropped_if, with_stage};

use call_stage::{is_kept, stage_at_tick};
use cluster_model::{
    CallStage, Cred, DsReply, FenceMirror, FenceStep, LeftCause, MAX_TIMEOUTS, MAX_UNSYNCED,
    Mirror, MirrorId, SERVERFAULT, Shown,
};

/// A mirror at the start of a fence: a call to it waits.
pub fn to_fence(mirror: Mirror) -> FenceMirror
    ensures { result ≡ to_fence mirror }
{
    FenceMirror {
        id: mirror.id,
        seen: mirror.seen,
        unsynced: 0,
        stage: CallStage::Waits,
    }
}

/// The mirror, with the ctime that an answer shows.
fn having_seen(mirror: FenceMirror, shown: Option<Shown>) -> FenceMirror
    ensures { result ≡ having_seen mirror shown }
{
    match shown {
        None => mirror,
        Some(shown) => FenceMirror {
            seen: shown.seen,
            ..mirror
        },
    }
}

/// The mirror, with its call at another stage.
pub fn with_stage(mirror: FenceMirror, stage: CallStage) -> FenceMirror
    ensures { result ≡ with_stage mirror stage }
{
    FenceMirror { stage, ..mirror }
}

/// It belongs to the fresh uid.
fn acknowledged(mirror: FenceMirror) -> (FenceMirror, FenceStep)
    ensures { record { mirror = result.0; step = result.1 } ≡ acknowledged mirror }
{
    (with_stage(mirror, CallStage::Done), FenceStep::Acked)
}

/// It failed behind an answer.
fn failed_by(mirror: FenceMirror, cause: LeftCause) -> (FenceMirror, FenceStep)
    ensures { record { mirror = result.0; step = result.1 } ≡ failed_by mirror cause }
{
    let id = mirror.id;
    (
        with_stage(mirror, CallStage::KeptBack),
        FenceStep::Failed { id, cause },
    )
}

/// Its ctime was another one: a new call waits, but for the eighth answer of this kind.
fn out_of_sync(mirror: FenceMirror) -> (FenceMirror, FenceStep)
    ensures { record { mirror = result.0; step = result.1 } ≡ out_of_sync mirror }
{
    if mirror.unsynced >= MAX_UNSYNCED - 1 {
        return failed_by(mirror, LeftCause::Unsynced);
    }
    let again = FenceMirror {
        unsynced: mirror.unsynced + 1,
        stage: CallStage::Waits,
        ..mirror
    };
    (again, FenceStep::Again)
}

/// What an answer to its SETATTR comes to, in a fence to this uid.
pub fn answered(fresh: Cred, mirror: FenceMirror, reply: &DsReply<'_>) -> (FenceMirror, FenceStep)
    ensures { record { mirror = result.0; step = result.1 } ≡ answered fresh.0 mirror (plain_ds_reply reply.now) }
{
    match *reply {
        DsReply::Set { shown } => acknowledged(having_seen(mirror, shown)),
        DsReply::NotSync { shown } => {
            let seen = having_seen(mirror, Some(shown));
            if shown.owner == fresh {
                acknowledged(seen)
            } else {
                out_of_sync(seen)
            }
        }
        DsReply::Failed { status, shown } => {
            failed_by(having_seen(mirror, shown), LeftCause::Error(status))
        }
        _ => failed_by(mirror, LeftCause::Error(SERVERFAULT)),
    }
}

/// What a timeout of its call comes to.
pub fn timed_out(mirror: FenceMirror) -> (FenceMirror, FenceStep)
    ensures { record { mirror = result.0; step = result.1 } ≡ timed_out mirror }
{
    match mirror.stage {
        CallStage::Out { xid, timeouts } if timeouts >= MAX_TIMEOUTS - 1 => {
            let step = FenceStep::Failed {
                id: mirror.id,
                cause: LeftCause::Timeouts,
            };
            (with_stage(mirror, CallStage::KeptOut { xid }), step)
        }
        CallStage::Out { xid, timeouts } => {
            let stage = CallStage::Out {
                xid,
                timeouts: timeouts + 1,
            };
            (with_stage(mirror, stage), FenceStep::Again)
        }
        CallStage::KeptOut { .. } => (mirror, FenceStep::Again),
        _ => (mirror, FenceStep::Stranger),
    }
}

/// The mirror after a tick: a kept one begins again, with its counts at zero.
pub fn at_tick(mirror: FenceMirror) -> FenceMirror
    ensures { result ≡ at_tick mirror }
{
    let unsynced = if is_kept(mirror.stage) {
        0
    } else {
        mirror.unsynced
    };
    FenceMirror {
        unsynced,
        stage: stage_at_tick(mirror.stage),
        ..mirror
    }
}

/// The mirror, given up where it is the one that is named.
pub fn dropped_if(id: MirrorId, mirror: FenceMirror) -> FenceMirror
    ensures { result ≡ dropped_if id mirror }
{
    if mirror.id == id {
        with_stage(mirror, CallStage::GivenUp)
    } else {
        mirror
    }
}
