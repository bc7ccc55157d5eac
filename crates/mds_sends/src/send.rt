//! One call.

ghost use Rattle.std.specs.Prelude.{◌≡◌, OnOk};
ghost use Rattle.cluster_model.specs.declared.ids.NodeId.TheVariants.{Server};
ghost use Rattle.awaited_calls.specs.Awaited.{sent_under};
ghost use Rattle.mds_rule.specs.MdsStates.{CallsServer};
ghost use Rattle.mds_rule.specs.Goes.{xid_after, calls_as};
ghost use Rattle.compound_run.specs.CompoundRuns.{HasMadeStep};

use awaited_calls::{AwaitedCall, SentTo};
use cluster_model::{NodeId, Outbox};
use ff_xdr::NoMemory;
use mds_rule::Waiter;
use mds_state::State;
use served_files::SentByFile;

/// The number behind a call's; 0 behind the last, so that none is left.
pub fn xid_after(xid: u32) -> u32
    ensures { result ≡ xid_after xid }
{
    if xid == u32::MAX {
        return 0;
    }
    xid + 1
}

/// A call goes to a node under the next number, and waits for its answer. Takes memory.
pub fn send_call(
    state: &mut State,
    node: NodeId,
    caller: Waiter,
    sent: SentTo,
    out: &mut Outbox,
) -> Result<(), NoMemory>
    ensures { OnOk result (HasMadeStep (calls_as state.old node caller (sent_under state.old.next_xid sent)) out.old state.new out.new) }
{
    let call = AwaitedCall {
        node,
        xid: state.next_xid,
        caller,
        sent,
    };
    let record = call.record(state.alloc)?;
    out.sends.push(record)?;
    state.next_xid = xid_after(state.next_xid);
    state.calls.add(call)
}

/// A call of a file goes to its data server. Takes memory.
pub fn send_to_server(state: &mut State, sent: SentByFile, out: &mut Outbox) -> Result<(), NoMemory>
    ensures { OnOk result (HasMadeStep (calls_as state.old (Server sent.server) sent.caller (CallsServer sent.server state.old.next_xid sent.uid.0 sent.call)) out.old state.new out.new) }
{
    let SentByFile {
        server,
        uid,
        caller,
        call,
    } = sent;
    let sent = SentTo::ToServer { server, uid, call };
    send_call(state, NodeId::Server(server), caller, sent, out)
}
