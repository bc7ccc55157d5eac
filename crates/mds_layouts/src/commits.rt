//! LAYOUTCOMMIT (RFC 8881, section 18.42).

ghost use Rattle.cluster_model.specs.declared.outbox.Outbox.{Outbox};
ghost use Rattle.nfs4_file_ops.specs.LayoutCommit.{layoutcommit4_args_value};
ghost use Rattle.mds_rule.specs.LayoutOps.{runs_layout_commit};
ghost use Rattle.compound_run.specs.CompoundRuns.{HasRoomForResults, HasOperated, AddsResult};

use compound_run::{OpEnd, Run};
use ff_xdr::NoMemory;
use mds_names::named_in;
use mds_refusals::try_layout_commit;
use mds_state::State;
use nfs4_compound::OpRes;
use nfs4_compound::nfs4_file_ops::LayoutCommitArgs;
use nfs4_types::OpResult;

/// LAYOUTCOMMIT: the sizes of a file are those that its mirrors show, so nothing is left to do. Takes memory.
pub fn layout_commit(
    state: &State,
    run: &mut Run<'_>,
    args: &LayoutCommitArgs<'_>,
) -> Result<OpEnd, NoMemory>
    requires { HasRoomForResults run.old }
    ensures op { (out : Outbox) → HasOperated (runs_layout_commit state.now run.old (layoutcommit4_args_value args.now)) out result state.now run.new out }
    ensures on { AddsResult run.old result run.new }
{
    let named = named_in(state, run, args.stateid);
    match try_layout_commit(run.so_far.current, named) {
        Ok(_) => run.give(&OpRes::LayoutCommit(OpResult::Done(None))),
        Err(status) => run.refuse(49, status),
    }
}
