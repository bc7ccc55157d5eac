//! One operation.

ghost use Rattle.std.specs.Prelude.{◌≡◌};
ghost use Rattle.nfs4_compound.specs.Args.{op_value};
ghost use Rattle.mds_rule.specs.Compounds.{has_session, operate, operates};
ghost use Rattle.compound_run.specs.CompoundRuns.{HasRoomForResults, HasOperated, AddsResult};

use cluster_model::Outbox;
use compound_run::{OpEnd, Run};
use ff_xdr::NoMemory;
use mds_layouts::{get_device_info, layout_commit, layout_get, layout_return};
use mds_names::{close, get_attr, get_fh, lookup, open, put_fh, put_root_fh};
use mds_sessions::{
    bind_conn_to_session, complete_reclaim, create_session, destroy_client, destroy_session,
    exchange_id,
};
use mds_state::State;
use mds_transfers::{commit, read, write};
use nfs4_compound::Op;
use nfs4_session::SlotPass;
use nfs4_types::Stat4;

/// An operation of a compound; it is `now`, in seconds. A SEQUENCE that is not the first stands in a wrong place. Takes memory.
pub fn operate(
    state: &mut State,
    run: &mut Run<'_>,
    op: &Op<'_>,
    now: u64,
    out: &mut Outbox,
) -> Result<OpEnd, NoMemory>
    requires { HasRoomForResults run.old }
    ensures op { HasOperated (operate now state.old run.old (op_value op.now)) out.old result state.new run.new out.new }
    ensures on { AddsResult run.old result run.new }
{
    match op {
        Op::Close(args) => close(state, run, args),
        Op::Commit(_) => commit(state, run),
        Op::GetAttr(asked) => get_attr(state, run, asked),
        Op::GetFh => get_fh(state, run),
        Op::Lookup(name) => lookup(state, run, name.bytes),
        Op::Open(args) => open(state, run, args),
        Op::PutFh(handle) => put_fh(state, run, handle.bytes),
        Op::PutRootFh => put_root_fh(state, run),
        Op::Read(args) => read(state, run, args),
        Op::Write(args) => write(state, run, args, now, out),
        Op::BindConn(args) => bind_conn_to_session(state, run, args),
        Op::ExchangeId(args) => exchange_id(state, run, args, now),
        Op::CreateSession(args) => create_session(state, run, args, now, out),
        Op::DestroySession(session) => destroy_session(state, run, *session),
        Op::GetDeviceInfo(args) => get_device_info(state, run, args),
        Op::LayoutCommit(args) => layout_commit(state, run, args),
        Op::LayoutGet(args) => layout_get(state, run, args, now, out),
        Op::LayoutReturn(args) => layout_return(state, run, args, out),
        Op::Sequence(_) => run.refuse(53, Stat4::SequencePos),
        Op::DestroyClientId(client) => destroy_client(state, run, *client, out),
        Op::ReclaimComplete(_) => complete_reclaim(state, run),
    }
}

/// The compound's session stands, where it has one. It may have gone while an operation waited.
fn has_session(state: &State, slot: Option<SlotPass>) -> bool
    ensures { result ≡ has_session state.now slot }
{
    match slot {
        Some(slot) => state.sessions.has_session(slot.session),
        None => true,
    }
}

/// The same, where the compound's session stands. Takes memory.
pub fn operate_in_session(
    state: &mut State,
    run: &mut Run<'_>,
    op: &Op<'_>,
    now: u64,
    out: &mut Outbox,
) -> Result<OpEnd, NoMemory>
    requires { HasRoomForResults run.old }
    ensures op { HasOperated (operates now state.old run.old (op_value op.now)) out.old result state.new run.new out.new }
    ensures on { AddsResult run.old result run.new }
{
    if !has_session(state, run.so_far.slot) {
        return run.refuse(op.number(), Stat4::BadSession);
    }
    operate(state, run, op, now, out)
}
