//! The reply to a compound.

ghost use Rattle.std.specs.Prelude.{◌≡◌, OnOk};
ghost use Rattle.mds_rule.specs.Compounds.{kept_in_slot, finishes};
ghost use Rattle.compound_run.specs.CompoundRuns.{HasMadeStep};

use cluster_model::Outbox;
use compound_reply::success_record;
use compound_run::Run;
use ff_xdr::{Data, NoMemory};
use mds_state::State;
use nfs4_session::SlotPass;
use nfs4_types::Stat4;

/// The slot that the compound has keeps its result, where it has one.
fn keep_in_slot(state: &mut State, slot: Option<SlotPass>, bytes: &[u8])
    ensures { state.new ≡ record state.old { sessions = kept_in_slot state.old.sessions slot bytes.now } }
{
    if let Some(slot) = slot {
        state.sessions.finish(slot, bytes);
    }
}

/// The compound ends by this status: its reply goes to who sent it, and its slot keeps it (RFC 8881, sections 2.10.6.1 and 16.2.4).
/// Takes memory.
pub fn finish(
    state: &mut State,
    run: &Run<'_>,
    status: Stat4,
    out: &mut Outbox,
) -> Result<(), NoMemory>
    ensures { OnOk result (HasMadeStep (finishes state.old run.now status) out.old state.new out.new) }
{
    let bytes = run.bytes(status)?;
    let record = success_record(state.alloc, run.so_far.xid, &bytes)?;
    out.sends.push((run.so_far.node, Data::from_vec(record)))?;
    keep_in_slot(state, run.so_far.slot, &bytes);
    Ok(())
}
