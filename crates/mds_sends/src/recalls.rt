//! Callbacks that recall layouts (RFC 8881, section 20.3).

ghost use Rattle.std.specs.Prelude.{◌≡◌, find, OnOk};
ghost use Rattle.mds_rule.specs.MdsStates.{served};
ghost use Rattle.nfs4_session.specs.Clients.{has_id};
ghost use Rattle.nfs4_session.specs.Bindings.{last_session};
ghost use Rattle.mds_rule.specs.Goes.{stateid_seqid, calls_back, recall_call};
ghost use Rattle.compound_run.specs.CompoundRuns.{HasMadeStep};

use crate::send::{send_call, xid_after};
use awaited_calls::SentTo;
use cluster_model::{FileId, Outbox};
use ff_xdr::NoMemory;
use mds_rule::Waiter;
use mds_state::State;
use nfs4_types::layout_stateid;
use recall::RecallCall;

/// The seqid that the file's layout was last given with.
fn seqid_of(state: &State, file: FileId) -> u32
    ensures { result ≡ stateid_seqid (served state.now file) }
{
    match state.files.get(file) {
        Some(served) => served.seqid,
        None => 0,
    }
}

/// The callback goes out on its client's session that was made or bound last. Where there is none its number is used, and nothing is
/// sent. Takes memory.
fn call_back(state: &mut State, call: RecallCall, out: &mut Outbox) -> Result<(), NoMemory>
    ensures { OnOk result (HasMadeStep (calls_back state.old call (last_session (find (has_id call.client) state.old.sessions.clients))) out.old state.new out.new) }
{
    let seqid = seqid_of(state, call.file);
    let Some(back) = state.sessions.back_channel(call.client) else {
        state.next_xid = xid_after(state.next_xid);
        return Ok(());
    };
    let node = back.node;
    let sent = SentTo::ToClient {
        back,
        file: call.file,
        stateid: layout_stateid(call.file.0, call.cred.0, seqid),
    };
    send_call(state, node, Waiter::ForRecall, sent, out)
}

/// The recall that is next goes out, where it is of this file. Takes memory.
pub fn call_recall(state: &mut State, file: FileId, out: &mut Outbox) -> Result<(), NoMemory>
    ensures { OnOk result (HasMadeStep (recall_call file state.old) out.old state.new out.new) }
{
    let xid = state.next_xid;
    if xid == 0 {
        return Ok(());
    }
    let Some(waiting) = state.recalls.waiting_file() else {
        return Ok(());
    };
    if waiting.0 != file.0 {
        return Ok(());
    }
    let Some(call) = state.recalls.next_call(xid) else {
        return Ok(());
    };
    call_back(state, call, out)
}
