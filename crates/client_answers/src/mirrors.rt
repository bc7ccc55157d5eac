//! The answers of data servers, and timeouts of calls to them.

ghost use Rattle.std.specs.Prelude.{◌≡◌, OnOk, if◌then◌else◌};
ghost use Rattle.rpc_record.specs.Replies.{rpc_reply};
ghost use Rattle.cluster_model.specs.DsCalls.{plain_ds_call};
ghost use Rattle.ds_calls.specs.GivenReplies.{reply_of_call};
ghost use Rattle.client_answers.specs.ClientMirrors.{is_commit, tells_covered, after_step, ds_answered};
ghost use Rattle.client_state.specs.ClientStates.{unmoved};
ghost use Rattle.client_state.specs.QueueSteps.{HasRun};
ghost use Rattle.client_answers.specs.AnswerSteps.{Hears};

use crate::lost::{lose_layout, lose_mirror};
use crate::told::tell_covered;
use client_mds_calls::OpenFile;
use client_state::{Layout, State};
use cluster_model::{DsCall, Outbox};
use ds_calls::ds_reply_of;
use ff_xdr::NoMemory;
use mirror_writer::WriterStep;
use rpc_record::Reply;

/// What a writer came to at a call to a data server.
#[derive(Clone, Copy, Debug, PartialEq, Eq)]
pub struct Heard {
    /// The call is a COMMIT.
    pub is_commit: bool,
    pub step: WriterStep,
}

/// The call is a COMMIT.
pub fn is_commit(call: &DsCall<'_>) -> bool
    ensures { result ≡ is_commit (plain_ds_call call.now) }
{
    match call {
        DsCall::Create { .. } => false,
        DsCall::SetAttr { .. } => false,
        DsCall::Write { .. } => false,
        DsCall::Commit { .. } => true,
        DsCall::Read { .. } => false,
    }
}

/// Hears a data server's reply. `None` where it is not to the call that is outstanding there.
fn hear(layout: &mut Layout, server: u32, reply: &Reply<'_>) -> Option<Heard>
    ensures { Hears layout.old server (rpc_reply reply.now) result layout.new }
{
    let (xid, call) = layout.writer.call_to(server)?;
    if xid != reply.xid {
        return None;
    }
    let is_commit = is_commit(&call);
    let answer = ds_reply_of(&call, reply);
    let step = layout.writer.on_reply(xid, &answer);
    Some(Heard { is_commit, step })
}

/// What follows of what the writer came to.
pub fn after_step(
    client: &mut State,
    file: OpenFile,
    heard: Heard,
    out: &mut Outbox,
) -> Result<(), NoMemory>
    ensures { OnOk result (HasRun (after_step heard.is_commit file heard.step client.old) out.old client.new out.new) }
{
    match heard.step {
        WriterStep::Stranger => Ok(()),
        WriterStep::Waiting => tell_if(client, heard.is_commit, file, out),
        WriterStep::Committed => tell_if(client, heard.is_commit, file, out),
        WriterStep::Failed { id, cause } => lose_mirror(client, id, cause, out),
        WriterStep::Fenced { .. } => lose_layout(client, out),
    }
}

/// Behind a COMMIT the writes that are covered by now are told.
fn tell_if(
    client: &mut State,
    is_commit: bool,
    file: OpenFile,
    out: &mut Outbox,
) -> Result<(), NoMemory>
    ensures { OnOk result (HasRun (if is_commit then tells_covered file client.old.layout client.old else unmoved client.old) out.old client.new out.new) }
{
    if !is_commit {
        return Ok(());
    }
    tell_covered(client, file, out)
}

/// A reply of a data server counts where it is to the call that is outstanding there.
pub fn ds_answered(
    client: &mut State,
    server: u32,
    reply: &Reply<'_>,
    out: &mut Outbox,
) -> Result<(), NoMemory>
    ensures { OnOk result (HasRun (ds_answered server reply.now.xid (λ call. reply_of_call call (rpc_reply reply.now)) client.old) out.old client.new out.new) }
{
    let Some(file) = client.file else {
        return Ok(());
    };
    let Some(layout) = &mut client.layout else {
        return Ok(());
    };
    let Some(heard) = hear(layout, server, reply) else {
        return Ok(());
    };
    after_step(client, file, heard, out)
}
