//! One target of a copy.

ghost use Rattle.std.specs.Prelude.{◌≡◌};
ghost use Rattle.cluster_model.specs.DsCalls.{plain_ds_reply};
ghost use Rattle.copy_rule.specs.Copies.{to_make, at_stage, having_made, having_written, seen_then, target_fails, create_answered, write_answered, target_answered, target_late, stage_for, to_write};
ghost use Rattle.resilver.specs.Sends.{next_for};

use crate::call::{NextCall, is_given_up};
use cluster_model::{
    CallStage, Cred, DsReply, LeftCause, MAX_TIMEOUTS, Mirror, MirrorId, SERVERFAULT, Shown, Tick,
};
use copy_rule::{CopyStep, CopyTarget, Target};

/// A target at the start of a copy: its CREATE waits.
pub fn to_make(target: Target) -> CopyTarget
    ensures { result ≡ to_make target }
{
    CopyTarget {
        server: target.server,
        name: target.name,
        replaced: target.replaced,
        made: None,
        stage: CallStage::Waits,
    }
}

/// The target, with its call at another stage.
pub fn at_stage(target: CopyTarget, stage: CallStage) -> CopyTarget
    ensures { result ≡ at_stage target stage }
{
    CopyTarget { stage, ..target }
}

/// What goes to it next: its CREATE, and once it is made the piece in hand.
pub fn next_for(copier: Cred, target: CopyTarget) -> NextCall
    ensures { result ≡ next_for copier.0 target.name target.made }
{
    match target.made {
        None => NextCall::MakesFile {
            name: target.name,
            owner: copier,
        },
        Some(mirror) => NextCall::WritesPiece {
            fileid: mirror.id.fileid,
        },
    }
}

/// Its file was made.
fn having_made(target: CopyTarget, fileid: u64, seen: Tick) -> CopyTarget
    ensures { result ≡ having_made target fileid seen }
{
    let id = MirrorId {
        server: target.server,
        fileid,
    };
    CopyTarget {
        made: Some(Mirror { id, seen }),
        stage: CallStage::Done,
        ..target
    }
}

/// The file, with the ctime that an answer shows.
fn seen_then(made: Option<Mirror>, shown: Option<Shown>) -> Option<Mirror>
    ensures { result ≡ seen_then made shown }
{
    let mirror = made?;
    match shown {
        None => Some(mirror),
        Some(shown) => Some(Mirror {
            seen: shown.seen,
            ..mirror
        }),
    }
}

/// It has taken the piece in hand.
fn having_written(target: CopyTarget, shown: Option<Shown>) -> CopyTarget
    ensures { result ≡ having_written target shown }
{
    CopyTarget {
        made: seen_then(target.made, shown),
        stage: CallStage::Done,
        ..target
    }
}

/// It failed, and is thrown away.
fn failed_by(target: CopyTarget, cause: LeftCause) -> (CopyTarget, CopyStep)
    ensures { record { target = result.0; step = result.1 } ≡ target_fails target cause }
{
    let thrown_away = CopyTarget {
        made: None,
        stage: CallStage::GivenUp,
        ..target
    };
    let step = CopyStep::TargetFailed {
        server: target.server,
        replaced: target.replaced,
        cause,
    };
    (thrown_away, step)
}

/// What an answer to its CREATE comes to (RFC 1813, section 3.3.8).
fn create_answered(target: CopyTarget, reply: &DsReply<'_>) -> (CopyTarget, CopyStep)
    ensures { record { target = result.0; step = result.1 } ≡ create_answered target (plain_ds_reply reply.now) }
{
    match *reply {
        DsReply::Created { fileid, shown } => {
            (having_made(target, fileid, shown.seen), CopyStep::Waiting)
        }
        DsReply::Failed { status, .. } => failed_by(target, LeftCause::Error(status)),
        _ => failed_by(target, LeftCause::Error(SERVERFAULT)),
    }
}

/// What an answer to a WRITE to it comes to (RFC 1813, section 3.3.7).
fn write_answered(target: CopyTarget, reply: &DsReply<'_>) -> (CopyTarget, CopyStep)
    ensures { record { target = result.0; step = result.1 } ≡ write_answered target (plain_ds_reply reply.now) }
{
    match *reply {
        DsReply::Written { shown, .. } => (having_written(target, shown), CopyStep::Waiting),
        DsReply::Failed { status, .. } => failed_by(target, LeftCause::Error(status)),
        _ => failed_by(target, LeftCause::Error(SERVERFAULT)),
    }
}

/// What an answer to its call comes to.
pub fn answered(target: CopyTarget, reply: &DsReply<'_>) -> (CopyTarget, CopyStep)
    ensures { record { target = result.0; step = result.1 } ≡ target_answered target (plain_ds_reply reply.now) target.made }
{
    match target.made {
        None => create_answered(target, reply),
        Some(_) => write_answered(target, reply),
    }
}

/// What a timeout of its call comes to.
pub fn timed_out(target: CopyTarget) -> (CopyTarget, CopyStep)
    ensures { record { target = result.0; step = result.1 } ≡ target_late target target.stage }
{
    match target.stage {
        CallStage::Out { timeouts, .. } if timeouts >= MAX_TIMEOUTS - 1 => {
            failed_by(target, LeftCause::Timeouts)
        }
        CallStage::Out { xid, timeouts } => {
            let stage = CallStage::Out {
                xid,
                timeouts: timeouts + 1,
            };
            (at_stage(target, stage), CopyStep::Waiting)
        }
        _ => (target, CopyStep::Waiting),
    }
}

/// Where the WRITE of a piece stands at first: one of no bytes is written without one.
fn stage_for(piece: &[u8]) -> CallStage
    ensures { result ≡ stage_for piece.now }
{
    if piece.is_empty() {
        CallStage::Done
    } else {
        CallStage::Waits
    }
}

/// The target, to which a piece is to be written unless it was thrown away.
pub fn to_write(piece: &[u8], target: CopyTarget) -> CopyTarget
    ensures { result ≡ to_write piece.now target }
{
    if is_given_up(target.stage) {
        target
    } else {
        at_stage(target, stage_for(piece))
    }
}
