//! The calls that a file has under way, or those of its own WRITE.

ghost use Rattle.std.specs.Prelude.{OnOk};
ghost use Rattle.mds_rule.specs.Goes.{own_call, own_two, own_calls};
ghost use Rattle.compound_run.specs.CompoundRuns.{HasMadeStep};

use crate::send::send_to_server;
use cluster_model::{FileId, Outbox};
use ff_xdr::NoMemory;
use mds_state::State;

/// The next call of a file goes out, where it goes to this place. Takes memory.
fn call_one(state: &mut State, file: FileId, place: usize, out: &mut Outbox) -> Result<(), NoMemory>
    ensures { OnOk result (HasMadeStep (own_call file place state.old) out.old state.new out.new) }
{
    let xid = state.next_xid;
    if xid == 0 {
        return Ok(());
    }
    let Some(served) = state.files.get(file) else {
        return Ok(());
    };
    let Some(server) = served.waiting_server() else {
        return Ok(());
    };
    if served.place_of(server) != place {
        return Ok(());
    }
    let Some(sent) = state.files.send_own(file, xid)? else {
        return Ok(());
    };
    send_to_server(state, sent, out)
}

/// At most two of them.
fn call_two(state: &mut State, file: FileId, place: usize, out: &mut Outbox) -> Result<(), NoMemory>
    ensures { OnOk result (HasMadeStep (own_two file place state.old) out.old state.new out.new) }
{
    call_one(state, file, place, out)?;
    call_one(state, file, place, out)
}

/// At most four of a file's own calls go to one place. Takes memory.
pub fn call_own(
    state: &mut State,
    file: FileId,
    place: usize,
    out: &mut Outbox,
) -> Result<(), NoMemory>
    ensures { OnOk result (HasMadeStep (own_calls file place state.old) out.old state.new out.new) }
{
    call_two(state, file, place, out)?;
    call_two(state, file, place, out)
}
