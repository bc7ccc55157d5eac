//! COMMIT (RFC 8881, section 18.3).

ghost use Rattle.cluster_model.specs.declared.outbox.Outbox.{Outbox};
ghost use Rattle.mds_rule.specs.FileOps.{runs_commit};
ghost use Rattle.compound_run.specs.CompoundRuns.{HasRoomForResults, HasOperated, AddsResult};

use compound_run::{OpEnd, Run};
use ff_xdr::NoMemory;
use mds_refusals::try_commit;
use mds_state::State;
use nfs4_compound::OpRes;
use nfs4_types::OpResult;

/// The verifier of every WRITE and COMMIT: what was answered is on disks, so no restart loses any of it (RFC 8881, section 18.32.3).
pub const WRITE_VERIFIER: u64 = 1;

/// COMMIT: each WRITE is on disks when it is answered, so nothing is left to do. Takes memory.
pub fn commit(state: &State, run: &mut Run<'_>) -> Result<OpEnd, NoMemory>
    requires { HasRoomForResults run.old }
    ensures op { (out : Outbox) → HasOperated (runs_commit state.now run.old) out result state.now run.new out }
    ensures on { AddsResult run.old result run.new }
{
    match try_commit(run.so_far.current) {
        Ok(_) => run.give(&OpRes::Commit(OpResult::Done(WRITE_VERIFIER))),
        Err(status) => run.refuse(5, status),
    }
}
