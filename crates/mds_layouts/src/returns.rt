//! LAYOUTRETURN (RFC 8881, section 18.44).

ghost use Rattle.std.specs.Prelude.{◌≡◌, is_some, option_map};
ghost use Rattle.cluster_model.specs.declared.outbox.Outbox.{Outbox};
ghost use Rattle.ff_xdr.specs.Items.{contents};
ghost use Rattle.ff_layout.specs.IoError.{ff_ioerr4, ff_ioerr4_value};
ghost use Rattle.nfs4_file_ops.specs.LayoutReturn.{layoutreturn4_args_value, layoutreturn_file4_value};
ghost use Rattle.mds_rule.specs.MdsStates.{served};
ghost use Rattle.mds_rule.specs.OpSteps.{with_result};
ghost use Rattle.mds_rule.specs.LayoutOps.{no_stateid, client_number, errors_of, return_by, file_return, returns_all, runs_layout_return};
ghost use Rattle.compound_run.specs.CompoundRuns.{HasRoomForResults, HasOperated, AddsResult, OnGoes};

use cluster_model::{EndCause, FileId, NodeId, Outbox};
use compound_run::{OpEnd, Run};
use ff_layout::{IoErr, LayoutReturnBody};
use ff_xdr::{Items, NoMemory, Wire};
use layout_report::report_of;
use mds_file::FileInput;
use mds_names::{client_of, named_in};
use mds_refusals::{FileReturn, try_layout_return, try_layout_return_all};
use mds_state::{State, end_periods, take_input};
use nfs4_compound::OpRes;
use nfs4_compound::nfs4_file_ops::{LayoutReturn, LayoutReturnArgs, LayoutReturnFile};
use nfs4_types::{OpResult, Stat4};

/// What is returned leaves no layout. Takes memory.
fn give_returned(run: &mut Run<'_>) -> Result<OpEnd, NoMemory>
    requires { HasRoomForResults run.old }
    ensures run { OnGoes result (run.new ≡ with_result run.old no_stateid) }
    ensures on { AddsResult run.old result run.new }
{
    run.give(&OpRes::LayoutReturn(OpResult::Done(None)))
}

/// The number of a client's node; 0 of another.
fn client_number(holder: Option<NodeId>) -> u32
    ensures { result ≡ client_number holder }
{
    match holder {
        Some(NodeId::Client(number)) => number,
        _ => 0,
    }
}

/// The client's period of a file ends, and these errors report its mirrors. Takes memory.
fn return_file(
    state: &mut State,
    run: &mut Run<'_>,
    file: FileId,
    errors: &Items<'_, IoErr<'_>>,
    out: &mut Outbox,
) -> Result<OpEnd, NoMemory>
    requires { HasRoomForResults run.old }
    ensures op { HasOperated (return_by state.old run.old file (contents ff_ioerr4 ff_ioerr4_value errors.now.place) (served state.old file)) out.old result state.new run.new out.new }
    ensures on { AddsResult run.old result run.new }
{
    let Some(served) = state.files.get(file) else {
        return run.refuse(51, Stat4::BadStateid);
    };
    let layout = served.state();
    let input = FileInput::Returns {
        client: client_number(layout.holder()),
        claimed: layout.cred(),
        reported: report_of(errors, &layout.live()),
    };
    take_input(state, file, input, out)?;
    give_returned(run)
}

/// What is reported with a layout, where the body has the form of the layout type.
fn body_in(bytes: &[u8]) -> Option<LayoutReturnBody<'_>>
    ensures errors { option_map (λ body. contents ff_ioerr4 ff_ioerr4_value body.errors.place) result ≡ errors_of bytes.now }
    ensures form { is_some result ≡ is_some (errors_of bytes.now) }
{
    LayoutReturnBody::from_bytes(bytes).ok()
}

/// LAYOUTRETURN4_FILE: the client's layout of the current file. Takes memory.
fn return_one(
    state: &mut State,
    run: &mut Run<'_>,
    reclaim: bool,
    layout_type: u32,
    args: &LayoutReturnFile<'_>,
    out: &mut Outbox,
) -> Result<OpEnd, NoMemory>
    requires { HasRoomForResults run.old }
    ensures op { HasOperated (file_return state.old run.old reclaim layout_type (layoutreturn_file4_value args.now)) out.old result state.new run.new out.new }
    ensures on { AddsResult run.old result run.new }
{
    let body = body_in(args.body.bytes);
    let asked = FileReturn {
        layout_type,
        reclaim,
        offset: args.offset,
        length: args.length,
        has_body: body.is_some(),
        named: named_in(state, run, args.stateid),
    };
    let file = match try_layout_return(run.so_far.current, asked) {
        Ok(file) => file,
        Err(status) => return run.refuse(51, status),
    };
    let Some(body) = body else {
        return run.refuse(51, Stat4::BadXdr);
    };
    return_file(state, run, file, &body.errors, out)
}

/// LAYOUTRETURN4_FSID and LAYOUTRETURN4_ALL: each period of the client ends. Takes memory.
fn return_all(
    state: &mut State,
    run: &mut Run<'_>,
    reclaim: bool,
    layout_type: u32,
    out: &mut Outbox,
) -> Result<OpEnd, NoMemory>
    requires { HasRoomForResults run.old }
    ensures op { HasOperated (returns_all state.old run.old reclaim layout_type) out.old result state.new run.new out.new }
    ensures on { AddsResult run.old result run.new }
{
    match try_layout_return_all(layout_type, reclaim) {
        Ok(()) => {
            end_periods(state, client_of(run), EndCause::ReturnedAll, out)?;
            give_returned(run)
        }
        Err(status) => run.refuse(51, status),
    }
}

/// LAYOUTRETURN: the client's period of the current file ends, or all of its periods. Takes memory.
pub fn layout_return(
    state: &mut State,
    run: &mut Run<'_>,
    args: &LayoutReturnArgs<'_>,
    out: &mut Outbox,
) -> Result<OpEnd, NoMemory>
    requires { HasRoomForResults run.old }
    ensures op { HasOperated (runs_layout_return state.old run.old (layoutreturn4_args_value args.now)) out.old result state.new run.new out.new }
    ensures on { AddsResult run.old result run.new }
{
    match &args.kind {
        LayoutReturn::File(one) => {
            return_one(state, run, args.reclaim, args.layout_type, one, out)
        }
        LayoutReturn::Fsid | LayoutReturn::All => {
            return_all(state, run, args.reclaim, args.layout_type, out)
        }
    }
}
