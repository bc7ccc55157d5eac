//! All calls that go out at the end of an event.

ghost use Rattle.std.specs.Prelude.{◌≡◌, ◌≤◌, ◌-◌, ◌∷◌, [], ℕ, List, Option, Some, OnOk};
ghost use Rattle.mds_rule.specs.Goes.{each, repeats, place_calls, file_calls, calls_out};
ghost use Rattle.compound_run.specs.CompoundRuns.{HasMadeStep};
ghost use Rattle.mds_sends.specs.Kept.{kept_in, first_number, kept_for, rest_behind, numbered_kept};

use crate::kept::NumberedCall;
use crate::next::next_file;
use crate::own::call_own;
use crate::reads::call_reads;
use crate::recalls::call_recall;
use cluster_model::{FileId, NodeId, Outbox};
use ff_xdr::NoMemory;
use mds_state::State;

/// The call of this server and number, which was kept until the tick, is sent again. Takes memory.
fn repeat(state: &mut State, kept: Option<(u32, u32)>, out: &mut Outbox) -> Result<(), NoMemory>
    ensures { OnOk result (HasMadeStep (repeats (Some kept) state.old) out.old state.new out.new) }
{
    let Some((server, xid)) = kept else {
        return Ok(());
    };
    let Some(call) = state.calls.get(NodeId::Server(server), xid) else {
        return Ok(());
    };
    out.sends.push(call.record(state.alloc)?)?;
    Ok(())
}

/// At one place a file's own calls go before its READs. Takes memory.
fn call_place(
    state: &mut State,
    file: FileId,
    place: usize,
    out: &mut Outbox,
) -> Result<(), NoMemory>
    ensures { OnOk result (HasMadeStep (place_calls file place state.old) out.old state.new out.new) }
{
    call_own(state, file, place, out)?;
    call_reads(state, file, place, out)
}

/// The places of the live list are 0 to 3, and 4 is behind all of them. Takes memory.
fn call_places(state: &mut State, file: FileId, out: &mut Outbox) -> Result<(), NoMemory>
    ensures { OnOk result (HasMadeStep (each (place_calls file) (0 ∷ 1 ∷ 2 ∷ 3 ∷ 4 ∷ []) state.old) out.old state.new out.new) }
{
    call_place(state, file, 0, out)?;
    call_place(state, file, 1, out)?;
    call_place(state, file, 2, out)?;
    call_place(state, file, 3, out)?;
    call_place(state, file, 4, out)
}

/// The calls of one file: its recall, what it kept until the tick, and what waits at its mirrors. It is settled behind them. Takes
/// memory.
fn call_file(
    state: &mut State,
    kept: Option<(u32, u32)>,
    number: u32,
    out: &mut Outbox,
) -> Result<(), NoMemory>
    requires { 1 ≤ number }
    ensures { (list : List (Option (ℕ × ℕ))) → kept_in list (number - 1) ≡ kept → OnOk result (HasMadeStep (file_calls list number state.old) out.old state.new out.new) }
{
    let file = FileId(number);
    call_recall(state, file, out)?;
    repeat(state, kept, out)?;
    call_places(state, file, out)?;
    state.files.settle(file);
    Ok(())
}

/// The number of the file that has kept the first of these.
fn first_number(rest: &[NumberedCall]) -> Option<u32>
    ensures { result ≡ first_number rest.now }
{
    let (call, _) = rest.split_first()?;
    Some(call.number)
}

/// The call that the file with this number has kept, if it is the first of these.
fn kept_for(rest: &[NumberedCall], number: u32) -> Option<(u32, u32)>
    ensures { result ≡ kept_for number rest.now }
{
    let (call, _) = rest.split_first()?;
    if call.number != number {
        return None;
    }
    Some((call.server, call.xid))
}

/// What is left of these behind the file with this number.
fn rest_behind(rest: &[NumberedCall], number: u32) -> &[NumberedCall]
    ensures { result.now ≡ rest_behind number rest.now }
{
    let Some((call, others)) = rest.split_first() else {
        return rest;
    };
    if call.number != number {
        return rest;
    }
    others
}

/// All calls that wait go out, and what files have kept until a tick. Only the files are visited that are due, whose recall is next, or
/// that have kept a call. Takes memory.
pub fn call_all(state: &mut State, kept: &[NumberedCall], out: &mut Outbox) -> Result<(), NoMemory>
    ensures { (list : List (Option (ℕ × ℕ))) → kept.now ≡ numbered_kept 1 list → OnOk result (HasMadeStep (calls_out list state.old) out.old state.new out.new) }
{
    let end = state.files.len() + 1;
    let mut from = 1;
    let mut rest = kept;
    while let Some(number) = next_file(state, first_number(rest), from, end) {
        call_file(state, kept_for(rest, number), number, out)?;
        rest = rest_behind(rest, number);
        from = number + 1;
    }
    Ok(())
}

/// All calls that wait go out, where nothing was kept until a tick. Takes memory.
pub fn call_due(state: &mut State, out: &mut Outbox) -> Result<(), NoMemory>
    ensures { OnOk result (HasMadeStep (calls_out [] state.old) out.old state.new out.new) }
{
    call_all(state, &[], out)
}
