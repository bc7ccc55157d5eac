//! A layout that is lost.

ghost use Rattle.std.specs.Prelude.{◌≡◌, ◌<◌, position, IfSome, OnOk};
ghost use Rattle.mirror_writer.specs.Outstanding.{has_no_mirror};
ghost use Rattle.client_state.specs.ClientQueue.{without_commit, fails_layout, revoked_layout};
ghost use Rattle.cluster_model.specs.declared.ids.Mirror.{Mirror};
ghost use Rattle.cluster_model.specs.Journal.{is_mirror};
ghost use Rattle.client_answers.specs.ClientMirrors.{mirror_failed, reported_status, with_failed};
ghost use Rattle.client_state.specs.QueueSteps.{HasRun};
ghost use Rattle.client_answers.specs.AnswerSteps.{layout_after_failure, with_queue};

use crate::answers::DELAY;
use client_state::{Layout, State, UserRequest};
use cluster_model::{FailCause, LeftCause, MirrorId, Mirrors, Outbox, UserAnswer};
use ff_xdr::NoMemory;

/// The status that is reported of a mirror that failed: NFS4ERR_DELAY for timeouts (RFC 8435, section 9.1.1).
fn reported_status(cause: LeftCause) -> u32
    ensures { result ≡ reported_status cause }
{
    match cause {
        LeftCause::Error(status) => status,
        LeftCause::Timeouts => DELAY,
        LeftCause::Reported => DELAY,
        LeftCause::Unsynced => DELAY,
    }
}

/// The place of a mirror.
fn place_of(mirrors: &Mirrors, id: MirrorId) -> Option<usize>
    ensures place { result ≡ position (λ (m : Mirror). is_mirror id m.id) mirrors.now }
    ensures within { IfSome result (λ place. place < 4) }
{
    for place in 0..mirrors.len() {
        let Some(mirror) = mirrors.get(place) else {
            return None;
        };
        if id == mirror.id {
            return Some(place);
        }
    }
    None
}

/// The mirror failed by this cause, which will be reported.
fn note_failure(layout: &mut Layout, id: MirrorId, cause: LeftCause)
    ensures { layout.new ≡ with_failed layout.old id cause }
{
    let status = reported_status(cause);
    if let Some(place) = place_of(&layout.mirrors, id) {
        layout.statuses[place] = Some(status);
    }
}

/// A mirror failed. Answers whether every mirror has failed: the writes that are not told are dropped then.
fn fail_mirror(layout: &mut Layout, id: MirrorId, cause: LeftCause) -> bool
    ensures none { result ≡ has_no_mirror layout.old.writer }
    ensures after { layout.new ≡ layout_after_failure result (with_failed layout.old id cause) }
{
    note_failure(layout, id, cause);
    let none = layout.writer.has_no_mirror();
    layout.end();
    if none {
        layout.untold.clear();
    }
    none
}

/// A commit that waits at the head is off the queue.
fn drop_commit(client: &mut State)
    ensures { client.new ≡ with_queue client.old (without_commit client.old.queue) }
{
    if let Some(UserRequest::Commit) = client.queue.front() {
        client.queue.pop_front();
    }
}

/// The user is told that the layout is lost, which answers a commit that waits.
fn fail_layout(client: &mut State, cause: FailCause, out: &mut Outbox) -> Result<(), NoMemory>
    ensures { OnOk result (HasRun (fails_layout cause client.old) out.old client.new out.new) }
{
    drop_commit(client);
    client.answer(UserAnswer::Failed(cause), out)
}

/// The layout was taken away; the writes that are not told are dropped with it.
pub fn lose_layout(client: &mut State, out: &mut Outbox) -> Result<(), NoMemory>
    ensures { OnOk result (HasRun (revoked_layout client.old) out.old client.new out.new) }
{
    client.layout = None;
    fail_layout(client, FailCause::Revoked, out)
}

/// A mirror failed: the others commit, and the layout is given back with a report. Where every mirror has
/// failed, the writes that are not told are dropped, and the user is told.
pub fn lose_mirror(
    client: &mut State,
    id: MirrorId,
    cause: LeftCause,
    out: &mut Outbox,
) -> Result<(), NoMemory>
    ensures { OnOk result (HasRun (mirror_failed id cause client.old.layout client.old) out.old client.new out.new) }
{
    let Some(layout) = &mut client.layout else {
        return Ok(());
    };
    if fail_mirror(layout, id, cause) {
        return fail_layout(client, FailCause::AllMirrors, out);
    }
    Ok(())
}
