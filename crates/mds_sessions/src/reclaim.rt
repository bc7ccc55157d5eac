//! RECLAIM_COMPLETE (RFC 8881, section 18.51).

ghost use Rattle.std.specs.Prelude.{◌≡◌};
ghost use Rattle.cluster_model.specs.declared.outbox.Outbox.{Outbox};
ghost use Rattle.mds_rule.specs.SessionOps.{reclaims};
ghost use Rattle.compound_run.specs.CompoundRuns.{HasRoomForResults, HasOperated, AddsResult};

use compound_run::{OpEnd, Run};
use ff_xdr::NoMemory;
use mds_state::State;
use nfs4_compound::OpRes;
use nfs4_session::client_in;
use nfs4_types::{OpResult, Stat4};

/// RECLAIM_COMPLETE: the client has nothing to reclaim, which it says once. Takes memory.
pub fn complete_reclaim(state: &mut State, run: &mut Run<'_>) -> Result<OpEnd, NoMemory>
    requires { HasRoomForResults run.old }
    ensures op { (out : Outbox) → HasOperated (reclaims state.old run.old run.old.slot) out result state.new run.new out }
    ensures on { AddsResult run.old result run.new }
{
    let Some(slot) = run.so_far.slot else {
        return run.refuse(58, Stat4::OpNotInSession);
    };
    let client = client_in(slot.session);
    if state.reclaimed.contains(&client) {
        return run.refuse(58, Stat4::CompleteAlready);
    }
    state.reclaimed.insert(client)?;
    run.give(&OpRes::ReclaimComplete(OpResult::Done(())))
}
