//! Who asks, and what its stateid names.

ghost use Rattle.std.specs.Prelude.{◌≡◌};
ghost use Rattle.mds_rule.specs.MdsStates.{served};
ghost use Rattle.mds_rule.specs.FileOps.{client_of, current_file, open_number, granted_of, named_in, phase_now, uids_left};

use cluster_model::{Cred, FileId, Phase};
use compound_run::Run;
use mds_refusals::{Named, Object, state_named};
use mds_state::State;
use nfs4_session::client_in;
use nfs4_types::Stateid;

/// The end of the uids: the last that is drawn is the one before it.
const END_OF_UIDS: u32 = 4_294_967_294;

/// The client that sent the compound; 0 without a SEQUENCE.
pub fn client_of(run: &Run<'_>) -> u64
    ensures { result ≡ client_of run.now }
{
    match run.so_far.slot {
        Some(slot) => client_in(slot.session),
        None => 0,
    }
}

/// The current file; 0 where the current filehandle is not of one.
pub fn current_file(run: &Run<'_>) -> FileId
    ensures { result ≡ current_file run.now }
{
    match run.so_far.current {
        Some(Object::File(file)) => file,
        _ => FileId(0),
    }
}

/// The uid of the layout that a client has of a file.
fn granted_of(state: &State, file: FileId, client: u64) -> Option<Cred>
    ensures { result ≡ granted_of (served state.now file) client }
{
    let served = state.files.get(file)?;
    let holder = served.holder?;
    if holder != client {
        return None;
    }
    Some(served.state().cred())
}

/// The number of a client's open of a file.
fn open_number(state: &State, client: u64, file: FileId) -> Option<u32>
    ensures { result ≡ open_number state.now client file }
{
    let open = state.opens.open_of(client, file)?;
    Some(open.number)
}

/// What a stateid names at the current file, for who asks.
pub fn named_in(state: &State, run: &Run<'_>, stateid: Stateid) -> Named
    ensures { result ≡ named_in state.now run.now stateid }
{
    let client = client_of(run);
    let file = current_file(run);
    let number = open_number(state, client, file);
    state_named(stateid, file, number, granted_of(state, file, client))
}

/// The phase of the current file.
pub fn phase_now(state: &State, run: &Run<'_>) -> Phase
    ensures { result ≡ phase_now state.now run.now }
{
    match state.files.get(current_file(run)) {
        Some(served) => served.state().phase(),
        None => Phase::Free,
    }
}

/// How many uids can still be drawn.
pub fn uids_left(state: &State) -> u32
    ensures { result ≡ uids_left state.now }
{
    END_OF_UIDS.saturating_sub(state.fresh.uid)
}
