//! Timeouts of calls to data servers.

ghost use Rattle.std.specs.Prelude.{◌≡◌, ◌≤◌, length, IfOk, OnOk};
ghost use Rattle.cluster_model.specs.declared.ids.NodeId.TheVariants.{Server};
ghost use Rattle.client_state.specs.QueueSteps.{HasStepped};
ghost use Rattle.client_answers.specs.ClientMirrors.{ds_timed_out};
ghost use Rattle.client_answers.specs.LateSteps.{out_under, IsLate, TimesOut, SendsAgain};

use crate::mirrors::{Heard, after_step, is_commit};
use client_state::{Layout, State};
use cluster_model::{Entry, NodeId, Outbox};
use ds_calls::ds_record;
use ff_xdr::{Data, NoMemory};
use mirror_writer::WriterStep;

/// A call that timed out.
#[derive(Debug, Drop)]
pub struct Late {
    /// Its number.
    pub xid: u32,
    /// It is a COMMIT.
    pub is_commit: bool,
    /// Its record.
    pub message: Data,
}

/// The record goes out again, where the writer goes on.
fn send_again(
    step: WriterStep,
    server: u32,
    message: Data,
    out: &mut Outbox,
) -> Result<(), NoMemory>
    ensures { OnOk result (SendsAgain step (Server server, message) out.old out.new) }
{
    match step {
        WriterStep::Stranger => Ok(()),
        WriterStep::Waiting => {
            out.sends.push((NodeId::Server(server), message))?;
            Ok(())
        }
        WriterStep::Failed { .. } => Ok(()),
        WriterStep::Fenced { .. } => Ok(()),
        WriterStep::Committed => Ok(()),
    }
}

/// What the writer comes to, where the call of this number timed out.
fn time_out_call(layout: &mut Layout, xid: u32) -> WriterStep
    ensures { TimesOut layout.old xid result layout.new }
{
    layout.writer.on_timeout(xid)
}

/// The call that is outstanding at a data server, as it was sent.
fn late_call(client: &State, server: u32) -> Result<Option<Late>, NoMemory>
    ensures { IfOk result (λ late. IsLate client.now (out_under client.now.layout server) late) }
{
    let Some(layout) = &client.layout else {
        return Ok(None);
    };
    let cred = layout.writer.cred();
    let Some((xid, call)) = layout.writer.call_to(server) else {
        return Ok(None);
    };
    let message = ds_record(client.alloc, xid, client.name.bytes(), cred, &call)?;
    let is_commit = is_commit(&call);
    Ok(Some(Late {
        xid,
        is_commit,
        message,
    }))
}

/// A call to a data server timed out: the same record goes out again, unless the mirror has failed by it.
pub fn ds_timed_out(client: &mut State, server: u32, out: &mut Outbox) -> Result<(), NoMemory>
    ensures { OnOk result (HasStepped (ds_timed_out server client.old) out.old client.new out.new) }
{
    let Some(file) = client.file else {
        return Ok(());
    };
    let Some(late) = late_call(client, server)? else {
        return Ok(());
    };
    let (xid, is_commit) = (late.xid, late.is_commit);
    let Some(layout) = &mut client.layout else {
        return Ok(());
    };
    let step = time_out_call(layout, xid);
    out.entries.push(Entry::TimedOut {
        node: NodeId::Client(client.number),
        xid,
    })?;
    send_again(step, server, late.message, out)?;
    after_step(client, file, Heard { is_commit, step }, out)
}
