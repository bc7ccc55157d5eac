//! Calls of a metadata server that time out.

ghost use Rattle.std.specs.Prelude.{◌≡◌, find, option_copied, OnOk};
ghost use Rattle.mds_rule.specs.MdsStates.{served};
ghost use Rattle.mds_rule.specs.MdsStates.{is_call_to};
ghost use Rattle.mds_rule.specs.Events.{is_outstanding_to, if_awaited, late_call, is_kept_by, goes_again, takes_timeout};
ghost use Rattle.mds_rule.specs.MdsStates.{AwaitedCall as SentBefore};
ghost use Rattle.mds_core.specs.LateCalls.{IsLateCall};
ghost use Rattle.compound_run.specs.CompoundRuns.{HasMadeStep};

use awaited_calls::AwaitedCall;
use cluster_model::{Entry, NodeId, Outbox};
use ff_xdr::{Data, NoMemory};
use mds_answers::{is_awaited, time_out as time_out_for};
use mds_rule::Waiter;
use mds_sends::call_due;
use mds_state::State;

/// The call to a node that was sent first, of those that are waited for.
fn first_awaited(state: &State, node: NodeId) -> Option<&AwaitedCall>
    ensures { option_copied result ≡ find (is_outstanding_to state.now node) state.now.calls }
{
    let mut after = None;
    loop {
        let call = state.calls.next_to(node, after)?;
        if is_awaited(state, call.node, call.xid, call.caller) {
            return Some(call);
        }
        after = Some(call.xid);
    }
}

/// The call to a node under this number, where it is waited for.
fn named_awaited(state: &State, node: NodeId, xid: u32) -> Option<&AwaitedCall>
    ensures { option_copied result ≡ if_awaited state.now (find (is_call_to node xid) state.now.calls) }
{
    let call = state.calls.get(node, xid)?;
    if !is_awaited(state, call.node, call.xid, call.caller) {
        return None;
    }
    Some(call)
}

/// The call to a node that a timeout is of: the one of this number, where it is waited for, or else the one that was sent first, of those
/// that are waited for.
fn late_call(state: &State, node: NodeId, which: Option<u32>) -> Option<&AwaitedCall>
    ensures { option_copied result ≡ late_call state.now node which }
{
    match which {
        None => first_awaited(state, node),
        Some(xid) => named_awaited(state, node, xid),
    }
}

/// The call of this number is kept until the next tick, by the file that waits for it.
fn is_kept(state: &State, xid: u32, caller: Waiter) -> bool
    ensures { result ≡ is_kept_by state.now xid caller }
{
    let Waiter::ForFile(file) = caller else {
        return false;
    };
    let Some(served) = state.files.get(file) else {
        return false;
    };
    match served.file.kept_out() {
        Some((_, kept)) => kept == xid,
        None => false,
    }
}

/// A call that timed out: the node that it went to, its number, who waits for it, and its record as it went out.
#[derive(Drop)]
struct LateCall {
    node: NodeId,
    xid: u32,
    caller: Waiter,
    sent: (NodeId, Data),
}

/// Its record goes again, where it is still waited for and is not kept until the next tick. One for which nobody waits is forgotten.
/// Takes memory.
fn send_again(state: &mut State, late: LateCall, out: &mut Outbox) -> Result<(), NoMemory>
    ensures { (call : SentBefore) → IsLateCall call late → OnOk result (HasMadeStep (goes_again call state.old) out.old state.new out.new) }
{
    let LateCall {
        node,
        xid,
        caller,
        sent,
    } = late;
    if !is_awaited(state, node, xid, caller) {
        state.calls.remove(node, xid);
        return Ok(());
    }
    if !is_kept(state, xid, caller) {
        out.sends.push(sent)?;
    }
    Ok(())
}

/// A call to a node timed out: the one of the number `which`, or else the one that was sent first, of those that are waited for. Nothing
/// happens where there is none. It is `now`, in seconds. Takes memory.
pub fn time_out(
    state: &mut State,
    node: NodeId,
    which: Option<u32>,
    now: u64,
    out: &mut Outbox,
) -> Result<(), NoMemory>
    ensures { OnOk result (HasMadeStep (takes_timeout now state.old node which) out.old state.new out.new) }
{
    let Some(call) = late_call(state, node, which) else {
        return Ok(());
    };
    let late = LateCall {
        node: call.node,
        xid: call.xid,
        caller: call.caller,
        sent: call.record(state.alloc)?,
    };
    out.entries.push(Entry::TimedOut {
        node: NodeId::Mds,
        xid: late.xid,
    })?;
    time_out_for(state, late.xid, late.caller, now, out)?;
    send_again(state, late, out)?;
    call_due(state, out)
}
