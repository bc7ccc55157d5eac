//! Time passes at a metadata server: leases, recalls, what waited for the tick, calls that nobody waits for.

ghost use Rattle.std.specs.Prelude.{◌≡◌, length, OnOk};
ghost use Rattle.std.specs.List.{range_with_len};
ghost use Rattle.file_rule.specs.FilePhases.{Ticks};
ghost use Rattle.mds_rule.specs.MdsStates.{numbered};
ghost use Rattle.mds_rule.specs.ServedFiles.{takes_input};
ghost use Rattle.mds_rule.specs.Goes.{each};
ghost use Rattle.mds_rule.specs.Events.{leases_end, recalls_expire, forgets_calls, takes_tick};
ghost use Rattle.compound_run.specs.CompoundRuns.{HasMadeStep};

use cluster_model::{EndCause, FileId, Outbox};
use ff_xdr::NoMemory;
use mds_answers::is_awaited;
use mds_file::FileInput;
use mds_sends::{call_all, kept_calls};
use mds_state::{State, end_client, take_input};

/// Clients whose leases have ended are gone. Takes memory.
fn end_leases(state: &mut State, now: u64, out: &mut Outbox) -> Result<(), NoMemory>
    ensures { OnOk result (HasMadeStep (leases_end now (length state.old.sessions.clients) state.old) out.old state.new out.new) }
{
    while let Some(client) = state.sessions.expire(now) {
        end_client(state, client, EndCause::Lease, out)?;
    }
    Ok(())
}

/// Periods end whose recalls have expired. Takes memory.
fn expire_recalls(state: &mut State, now: u64, out: &mut Outbox) -> Result<(), NoMemory>
    ensures { OnOk result (HasMadeStep (recalls_expire now (length state.old.recalls) state.old) out.old state.new out.new) }
{
    while let Some((file, _)) = state.recalls.tick(now) {
        take_input(state, file, FileInput::Revokes(EndCause::Recalled), out)?;
    }
    Ok(())
}

/// A tick at each file. Only those are visited that it may change: it costs by them. Takes memory.
fn tick_files(state: &mut State, out: &mut Outbox) -> Result<(), NoMemory>
    ensures { OnOk result (HasMadeStep (each (λ n m. takes_input m (numbered n) Ticks) (range_with_len 1 (length state.old.files)) state.old) out.old state.new out.new) }
{
    let mut from = 1;
    while let Some(file) = state.files.next_restless(from) {
        take_input(state, file, FileInput::Ticks, out)?;
        from = file.0 + 1;
    }
    Ok(())
}

/// Calls that nobody waits for are forgotten. It goes over the calls once, by their numbers; each costs the logarithm of how many there
/// are, and what it costs to see whether it is waited for. Takes no memory.
fn forget_calls(state: &mut State)
    ensures { state.new ≡ (forgets_calls state.old).mds }
{
    let mut after = None;
    while let Some(call) = state.calls.first_behind(after) {
        let (node, xid) = (call.node, call.xid);
        if !is_awaited(state, node, xid, call.caller) {
            state.calls.remove(node, xid);
        }
        after = Some(xid);
    }
}

/// Time passed; it is `now`, in seconds. Takes memory.
pub fn tick(state: &mut State, now: u64, out: &mut Outbox) -> Result<(), NoMemory>
    ensures { OnOk result (HasMadeStep (takes_tick now state.old) out.old state.new out.new) }
{
    end_leases(state, now, out)?;
    expire_recalls(state, now, out)?;
    let kept = kept_calls(state)?;
    tick_files(state, out)?;
    call_all(state, &kept, out)?;
    forget_calls(state);
    Ok(())
}
