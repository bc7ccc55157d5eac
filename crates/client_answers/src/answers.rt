//! The answers of the metadata server.

ghost use Rattle.std.specs.Prelude.{◌≡◌, Some, OnOk};
ghost use Rattle.client_mds_calls.specs.MdsReplies.{plain_mds_answer};
ghost use Rattle.client_state.specs.ClientStates.{as_new};
ghost use Rattle.client_state.specs.ClientQueue.{answers_user};
ghost use Rattle.client_state.specs.ClientStates.{is_layout_return};
ghost use Rattle.client_answers.specs.ClientAnswers.{opens_file, next_on_slot, without_head, fresh_session, completed_tie, new_layout, head_refused, has_session, deferred, defers, after_refusal, refused_otherwise, is_for_later, asks_later, session_lost, refused_by_mds, by_answer};
ghost use Rattle.client_state.specs.QueueSteps.{HasRun, with_layout_at};
ghost use Rattle.client_answers.specs.AnswerSteps.{with_tie};

use crate::learn::learn;
use crate::lost::lose_layout;
use crate::told::end_return;
use client_mds_calls::{LayoutGrant, MdsAnswer, MdsAsk, OpenFile};
use client_state::{Layout, LayoutStage, OwnSession, State, Tie, Untold, is_layout_return};
use cluster_model::{Outbox, UserAnswer};
use ff_xdr::{Data, NoMemory};
use mirror_writer::Writer;
use nfs4_session::{CbSlot, next_sequence};
use nfs4_types::SessionId;

/// NFS4ERR_DELAY (RFC 8881, section 15.1).
pub const DELAY: u32 = 10008;

/// NFS4ERR_BAD_STATEID.
pub const BAD_STATEID: u32 = 10025;

/// NFS4ERR_BADSESSION.
pub const BADSESSION: u32 = 10052;

/// NFS4ERR_LAYOUTTRYLATER.
pub const LAYOUTTRYLATER: u32 = 10058;

/// NFS4ERR_RECALLCONFLICT.
pub const RECALLCONFLICT: u32 = 10061;

/// The same is asked again at the next tick.
fn is_for_later(status: u32) -> bool
    ensures { result ≡ is_for_later status }
{
    status == LAYOUTTRYLATER || status == RECALLCONFLICT || status == DELAY
}

/// A new session: the first request on its slot has the number 1 (RFC 8881, section 2.10.6.1).
fn fresh_session(id: SessionId) -> OwnSession
    ensures { result ≡ fresh_session id }
{
    OwnSession {
        id,
        next: 1,
        is_complete: false,
        callbacks: CbSlot::new(id),
        renewed: None,
    }
}

/// The request on slot 0 took effect: the next has the number behind it, and the lease is renewed.
pub fn next_on_slot(client: &mut State, now: u64)
    ensures { client.new ≡ next_on_slot now client.old }
{
    if let Tie::HasSession(session) = &mut client.tie {
        session.next = next_sequence(session.next);
        session.renewed = Some(now);
    }
}

/// The request at the head is answered.
fn drop_head(client: &mut State)
    ensures { client.new ≡ without_head client.old }
{
    client.queue.pop_front();
    client.waits = false;
}

/// The request at the head gets the status, if there is one.
fn refuse_waiting(client: &mut State, status: u32, out: &mut Outbox) -> Result<(), NoMemory>
    ensures { OnOk result (HasRun (head_refused status client.old.queue client.old) out.old client.new out.new) }
{
    if client.queue.is_empty() {
        return Ok(());
    }
    drop_head(client);
    client.refuse(status, out)
}

/// It has a session.
fn has_session(client: &State) -> bool
    ensures { result ≡ has_session client.now.tie }
{
    match client.tie {
        Tie::NoClient => false,
        Tie::HasClient { .. } => false,
        Tie::HasSession(_) => true,
    }
}

/// LAYOUTRETURN goes out again at the next tick.
fn defer_return(client: &mut State)
    ensures { client.new ≡ with_layout_at client.old (deferred client.old.layout) }
{
    if let Some(layout) = &mut client.layout {
        layout.stage = LayoutStage::Deferred;
    }
}

/// A LAYOUTRETURN is still due; a client that has no session yet is as new.
fn after_refusal(client: &mut State, ask: MdsAsk)
    ensures { client.new ≡ after_refusal ask client.old }
{
    if !has_session(client) {
        client.become_new();
        return;
    }
    if is_layout_return(ask) {
        defer_return(client);
    }
}

/// The request at the head gets the status.
fn refuse_otherwise(
    client: &mut State,
    ask: MdsAsk,
    status: u32,
    out: &mut Outbox,
) -> Result<(), NoMemory>
    ensures { OnOk result (HasRun (refused_otherwise ask status client.old) out.old client.new out.new) }
{
    refuse_waiting(client, status, out)?;
    after_refusal(client, ask);
    Ok(())
}

/// The same is asked again at the next tick.
fn ask_later(client: &mut State, ask: MdsAsk)
    ensures { client.new ≡ asks_later ask client.old }
{
    match ask {
        MdsAsk::LayoutReturn => defer_return(client),
        MdsAsk::Renew => {}
        _ => client.waits = true,
    }
}

/// The session is gone: a layout is lost with it; without one the request at the head gets the status. Then
/// the client is as new.
fn lose_session(client: &mut State, out: &mut Outbox) -> Result<(), NoMemory>
    ensures { OnOk result (HasRun (session_lost client.old.layout client.old) out.old client.new out.new) }
{
    if client.layout.is_none() {
        refuse_waiting(client, BADSESSION, out)?;
        client.become_new();
        return Ok(());
    }
    lose_layout(client, out)?;
    client.become_new();
    Ok(())
}

/// What was asked was not done, by this status.
fn refused_by_mds(
    client: &mut State,
    ask: MdsAsk,
    status: u32,
    out: &mut Outbox,
) -> Result<(), NoMemory>
    ensures { OnOk result (HasRun (refused_by_mds ask status client.old) out.old client.new out.new) }
{
    if status == BADSESSION {
        return lose_session(client, out);
    }
    if is_for_later(status) {
        ask_later(client, ask);
        return Ok(());
    }
    if status == BAD_STATEID && is_layout_return(ask) {
        return lose_layout(client, out);
    }
    refuse_otherwise(client, ask, status, out)
}

/// The file is open.
fn take_open(client: &mut State, file: OpenFile, out: &mut Outbox) -> Result<(), NoMemory>
    ensures { OnOk result (HasRun (opens_file file client.old) out.old client.new out.new) }
{
    drop_head(client);
    client.file = Some(file);
    client.answer(UserAnswer::Opened(file.file), out)
}

/// RECLAIM_COMPLETE is done.
fn complete(client: &mut State)
    ensures { client.new ≡ with_tie client.old (completed_tie client.old.tie) }
{
    if let Tie::HasSession(session) = &mut client.tie {
        session.is_complete = true;
    }
}

/// The layout was granted.
fn take_layout(client: &mut State, grant: LayoutGrant) -> Result<(), NoMemory>
    ensures { OnOk result (client.new ≡ with_layout_at client.old (Some (new_layout grant))) }
{
    let writer = Writer::open(client.alloc, grant.mirrors, grant.uid)?;
    client.layout = Some(Layout {
        stateid: grant.stateid,
        mirrors: grant.mirrors,
        writer,
        untold: Untold::new(client.alloc),
        statuses: [None; 4],
        stage: LayoutStage::Writing,
        was_sent: false,
    });
    Ok(())
}

/// The request at the head is answered so.
fn answer_head(client: &mut State, answer: UserAnswer, out: &mut Outbox) -> Result<(), NoMemory>
    ensures { OnOk result (HasRun (answers_user answer (without_head client.old)) out.old client.new out.new) }
{
    drop_head(client);
    client.answer(answer, out)
}

/// What was asked came to this.
pub fn take_answer(
    client: &mut State,
    ask: MdsAsk,
    answer: &MdsAnswer<'_>,
    out: &mut Outbox,
) -> Result<(), NoMemory>
    ensures { OnOk result (HasRun (by_answer ask (plain_mds_answer answer.now) client.old) out.old client.new out.new) }
{
    match answer {
        MdsAnswer::Refused(status) => refused_by_mds(client, ask, status.number(), out),
        MdsAnswer::Client { clientid, sequence } => {
            client.tie = Tie::HasClient {
                clientid: *clientid,
                sequence: *sequence,
            };
            Ok(())
        }
        MdsAnswer::Session(session) => {
            client.tie = Tie::HasSession(fresh_session(*session));
            Ok(())
        }
        MdsAnswer::Complete => {
            complete(client);
            Ok(())
        }
        MdsAnswer::Opened(file) => take_open(client, *file, out),
        MdsAnswer::Granted(grant) => take_layout(client, *grant),
        MdsAnswer::Devices(addresses) => learn(client, addresses),
        MdsAnswer::Written => answer_head(client, UserAnswer::Written, out),
        MdsAnswer::Bytes { eof, bytes } => {
            let bytes = Data::to_share(client.alloc, bytes)?;
            answer_head(client, UserAnswer::Bytes { eof: *eof, bytes }, out)
        }
        MdsAnswer::Returned => end_return(client, out),
        MdsAnswer::Renewed => Ok(()),
    }
}
