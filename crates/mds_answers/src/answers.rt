//! Answers to calls.

ghost use Rattle.std.specs.Prelude.{◌≡◌, OnOk};
ghost use Rattle.rpc_record.specs.Replies.{rpc_reply, reply_stat, reply_results};
ghost use Rattle.cluster_model.specs.DsCalls.{plain_ds_call, plain_ds_reply};
ghost use Rattle.nfs4_types.specs.Status.{stat4_number};
ghost use Rattle.ds_calls.specs.GivenReplies.{HasFewBytes, reply_of_call};
ghost use Rattle.recall_calls.specs.RecallAnswers.{recall_status};
ghost use Rattle.recall.specs.Recalls as recalls;
ghost use Rattle.mds_rule.specs.Answers.{gives_nothing, copy_read, own_answer, recall_end, recalls_after, server_answered, takes_answer};
ghost use Rattle.compound_run.specs.CompoundRuns.{HasMadeStep};

use crate::awaited::is_awaited;
use crate::reads::resume_read;
use crate::writes::{resume_write, see_ctime};
use awaited_calls::{AwaitedCall, SentTo};
use cluster_model::{DsCall, DsReply, NodeId, Outbox, SERVERFAULT};
use ds_calls::ds_reply_of;
use ff_xdr::NoMemory;
use mds_file::FileInput;
use mds_rule::Waiter;
use mds_state::{State, end_recall, take_input};
use nfs4_types::Stat4;
use recall_calls::recall_answer;
use rpc_record::{Reply, ReplyBody};

/// What a data server answered to a call.
#[derive(Drop)]
struct ServerAnswer<'a> {
    server: u32,
    /// The number of the call.
    xid: u32,
    call: DsCall<'a>,
    reply: DsReply<'a>,
}

/// No bytes were read, and the file does not end there.
fn gives_nothing(eof: bool, bytes: &[u8]) -> bool
    ensures { result ≡ gives_nothing eof bytes.now }
{
    !eof && bytes.is_empty()
}

/// What the READ of a copy was answered with. One that gives no bytes and does not say that the file ends there is odd, and nothing in
/// it is relied on: the copy would never end.
fn copy_read<'a>(reply: DsReply<'a>) -> DsReply<'a>
    ensures { plain_ds_reply result ≡ copy_read (plain_ds_reply reply.entry) }
{
    if let DsReply::Bytes { eof, bytes, .. } = reply {
        if gives_nothing(eof, bytes) {
            return DsReply::Failed {
                status: SERVERFAULT,
                shown: None,
            };
        }
    }
    reply
}

/// What a file's own call was answered with. A READ is that of a copy.
fn own_answer<'a>(call: &DsCall<'_>, reply: DsReply<'a>) -> DsReply<'a>
    ensures { plain_ds_reply result ≡ own_answer (plain_ds_call call.now) (plain_ds_reply reply.entry) }
{
    match call {
        DsCall::Read { .. } => copy_read(reply),
        _ => reply,
    }
}

/// What comes of it, where `caller` waits for it; it is `now`, in seconds. Takes memory.
fn server_answered(
    state: &mut State,
    answer: &ServerAnswer<'_>,
    caller: Waiter,
    now: u64,
    out: &mut Outbox,
) -> Result<(), NoMemory>
    requires { HasFewBytes (plain_ds_reply answer.now.reply) }
    ensures { OnOk result (HasMadeStep (server_answered now state.old answer.now.server answer.now.xid (plain_ds_call answer.now.call) (plain_ds_reply answer.now.reply) caller) out.old state.new out.new) }
{
    let ServerAnswer {
        server,
        xid,
        call,
        reply,
    } = answer;
    match caller {
        Waiter::ForFile(file) => {
            let reply = own_answer(call, *reply);
            state.files.see_size(file, *server, call, &reply)?;
            take_input(state, file, FileInput::Answers { xid: *xid, reply }, out)
        }
        Waiter::ForRead(file) => {
            state.files.see_size(file, *server, call, reply)?;
            let ended = state
                .files
                .answer_read(file, *xid, reply, &mut out.entries)?;
            resume_read(state, file, ended, now, out)
        }
        Waiter::ForWrite(file) => {
            state.files.see_size(file, *server, call, reply)?;
            see_ctime(state, file, *server, call, reply, out)?;
            let ended = state.files.answer_write(file, *xid, reply)?;
            resume_write(state, file, ended, now, out)
        }
        Waiter::ForRecall => Ok(()),
    }
}

/// A status that settles a recall, or another (RFC 8881, section 20.3.3).
fn recall_end(status: Stat4) -> Stat4
    ensures { result ≡ recall_end (stat4_number status) }
{
    match status.number() {
        0 => Stat4::Ok,
        10_060 => Stat4::NoMatchingLayout,
        _ => Stat4::ServerFault,
    }
}

/// What a client answered to the callback of this number. Takes memory.
fn client_answered(
    state: &mut State,
    xid: u32,
    reply: &ReplyBody<'_>,
    out: &mut Outbox,
) -> Result<(), NoMemory>
    ensures { OnOk result (HasMadeStep (recalls_after state.old (recalls.after_reply state.old.recalls xid (recall_end (recall_status (reply_stat reply.now) (reply_results reply.now))))) out.old state.new out.new) }
{
    let status = recall_end(recall_answer(reply));
    let outcome = state.recalls.on_reply(xid, status);
    end_recall(state, outcome, out)
}

/// A reply came from a node. It is the answer to the call to that node under its number, where that is waited for; it is `now`, in
/// seconds. Takes memory.
pub fn take_answer(
    state: &mut State,
    node: NodeId,
    reply: &Reply<'_>,
    now: u64,
    out: &mut Outbox,
) -> Result<(), NoMemory>
    ensures { OnOk result (HasMadeStep (takes_answer now state.old node reply.now.xid (λ call. reply_of_call call (rpc_reply reply.now)) (recall_status (reply_stat reply.now.body) (reply_results reply.now.body))) out.old state.new out.new) }
{
    let Some(call) = state.calls.take(node, reply.xid) else {
        return Ok(());
    };
    let AwaitedCall {
        node,
        xid,
        caller,
        sent,
    } = call;
    if !is_awaited(state, node, xid, caller) {
        return Ok(());
    }
    match sent {
        SentTo::ToServer {
            server,
            call: sent,
            ..
        } => {
            let asked = sent.lend();
            let answer = ServerAnswer {
                server,
                xid: reply.xid,
                call: asked,
                reply: ds_reply_of(&asked, reply),
            };
            server_answered(state, &answer, caller, now, out)
        }
        SentTo::ToClient { .. } => client_answered(state, reply.xid, &reply.body, out),
    }
}
