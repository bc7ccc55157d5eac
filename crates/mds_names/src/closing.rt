//! CLOSE (RFC 8881, section 18.2).

ghost use Rattle.std.specs.Prelude.{◌≡◌};
ghost use Rattle.nfs4_file_ops.specs.Close.{close4_args_value};
ghost use Rattle.mds_rule.specs.FileOps.{client_of, closes, runs_close};
ghost use Rattle.cluster_model.specs.declared.outbox.Outbox.{Outbox};
ghost use Rattle.open_state.specs.Opens.{open_of};
ghost use Rattle.compound_run.specs.CompoundRuns.{HasRoomForResults, HasOperated, AddsResult};

use crate::asked::{client_of, named_in};
use cluster_model::FileId;
use compound_run::{OpEnd, Run};
use ff_xdr::NoMemory;
use mds_refusals::try_close;
use mds_state::State;
use nfs4_compound::OpRes;
use nfs4_compound::nfs4_file_ops::CloseArgs;
use nfs4_types::{OpResult, Stat4};

/// A client's open of a file ends.
fn close_file(
    state: &mut State,
    run: &mut Run<'_>,
    client: u64,
    file: FileId,
) -> Result<OpEnd, NoMemory>
    requires room { HasRoomForResults run.old }
    requires whose { client ≡ client_of run.old }
    ensures op { (out : Outbox) → HasOperated (closes state.old run.old file (open_of state.old.opens client file)) out result state.new run.new out }
    ensures on { AddsResult run.old result run.new }
{
    let Some(ended) = state.opens.close(client, file) else {
        return run.refuse(4, Stat4::BadStateid);
    };
    run.give(&OpRes::Close(OpResult::Done(ended.stateid())))
}

/// CLOSE: the client's open of the current file ends. Takes memory.
pub fn close(state: &mut State, run: &mut Run<'_>, args: &CloseArgs) -> Result<OpEnd, NoMemory>
    requires { HasRoomForResults run.old }
    ensures op { (out : Outbox) → HasOperated (runs_close state.old run.old (close4_args_value args.now)) out result state.new run.new out }
    ensures on { AddsResult run.old result run.new }
{
    let named = named_in(state, run, args.stateid);
    match try_close(run.so_far.current, named) {
        Ok(file) => close_file(state, run, client_of(run), file),
        Err(status) => run.refuse(4, status),
    }
}
