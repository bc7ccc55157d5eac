//! The READs of a file.

ghost use Rattle.std.specs.Prelude.{◌≡◌, OnOk};
ghost use Rattle.mds_rule.specs.MdsStates.{served};
ghost use Rattle.mds_rule.specs.Goes.{read_count, read_call_in, read_calls};
ghost use Rattle.compound_run.specs.CompoundRuns.{HasMadeStep};

use crate::send::send_to_server;
use cluster_model::{FileId, Outbox};
use ff_xdr::NoMemory;
use mds_state::State;

/// The READ that began as this one of a file's goes out, where it waits and goes to this place. Takes memory.
fn call_read(
    state: &mut State,
    file: FileId,
    place: usize,
    n: usize,
    out: &mut Outbox,
) -> Result<(), NoMemory>
    ensures { OnOk result (HasMadeStep (read_call_in file place n state.old (served state.old file)) out.old state.new out.new) }
{
    let xid = state.next_xid;
    let Some(served) = state.files.get(file) else {
        return Ok(());
    };
    let Some(server) = served.waiting_read(n) else {
        return Ok(());
    };
    if served.place_of(server) != place || xid == 0 {
        return Ok(());
    }
    let Some(sent) = state.files.send_read(file, n, xid)? else {
        return Ok(());
    };
    send_to_server(state, sent, out)
}

/// How many READs of a file wait.
fn read_count(state: &State, file: FileId) -> usize
    ensures { result ≡ read_count (served state.now file) }
{
    match state.files.get(file) {
        Some(served) => served.reads.len(),
        None => 0,
    }
}

/// The READs of a file that go to this place, in the order in which they began. Takes memory.
pub fn call_reads(
    state: &mut State,
    file: FileId,
    place: usize,
    out: &mut Outbox,
) -> Result<(), NoMemory>
    ensures { OnOk result (HasMadeStep (read_calls file place state.old) out.old state.new out.new) }
{
    for n in 0..read_count(state, file) {
        call_read(state, file, place, n, out)?;
    }
    Ok(())
}
