//! The first operation of a compound (RFC 8881, sections 2.10.6 and 16.2.3).

ghost use Rattle.std.specs.Prelude.{◌≡◌, ◌≤◌, ◌<◌, [], length, option_map, OnOk};
ghost use Rattle.nfs4_compound.specs.Args.{op_value};
ghost use Rattle.mds_rule.specs.Compounds.{sequence_in, sequence_of, may_stand_alone, first_by, runs_compound};
ghost use Rattle.compound_run.specs.CompoundRuns.{HasRoomForResults, HasOperated, AddsResult, HasMadeStep};
ghost use Rattle.mds_compounds.specs.Walks.{alone_step};

use crate::operate::operate;
use crate::sequence::begin_sequence;
use crate::walk::go_on;
use cluster_model::{NodeId, Outbox};
use compound_reply::Results;
use compound_run::{OpEnd, Progress, Run};
use ff_xdr::NoMemory;
use mds_state::State;
use nfs4_compound::{Compound, NextOp, Op};
use nfs4_types::{Sequence, Stat4};

/// An operation with this number may stand without a SEQUENCE, but alone: BIND_CONN_TO_SESSION, EXCHANGE_ID, CREATE_SESSION,
/// DESTROY_SESSION and DESTROY_CLIENTID.
fn may_stand_alone(number: u32) -> bool
    ensures { result ≡ may_stand_alone number }
{
    matches!(number, 41..=44 | 57)
}

/// The first operation, of so many, where it is no SEQUENCE; it is `now`, in seconds. Takes memory.
fn begin_alone(
    state: &mut State,
    run: &mut Run<'_>,
    count: u32,
    op: &Op<'_>,
    now: u64,
    out: &mut Outbox,
) -> Result<OpEnd, NoMemory>
    requires { HasRoomForResults run.old }
    ensures op { HasOperated (alone_step now state.old run.old count (op_value op.now)) out.old result state.new run.new out.new }
    ensures on { AddsResult run.old result run.new }
{
    let number = op.number();
    if !may_stand_alone(number) {
        return run.refuse(number, Stat4::OpNotInSession);
    }
    if count != 1 {
        return run.refuse(number, Stat4::NotOnlyOp);
    }
    operate(state, run, op, now, out)
}

/// Where a compound stands in its session, if the operation is a SEQUENCE.
fn sequence_of(op: &Op<'_>) -> Option<Sequence>
    ensures { result ≡ option_map sequence_in (sequence_of (op_value op.now)) }
{
    match op {
        Op::Sequence(sequence) => Some(*sequence),
        _ => None,
    }
}

/// The compound begins with this operation, of so many; it is `now`, in seconds. Takes memory.
fn begin_with(
    state: &mut State,
    run: &mut Run<'_>,
    count: u32,
    op: &Op<'_>,
    now: u64,
    out: &mut Outbox,
) -> Result<(), NoMemory>
    requires room { length run.old.ops < 16 }
    requires first { run.old.results ≡ [] }
    ensures { OnOk result (HasMadeStep (first_by now state.old run.old count (op_value op.now) run.old.ops (sequence_of (op_value op.now))) out.old state.new out.new) }
{
    if let Some(sequence) = sequence_of(op) {
        return begin_sequence(state, run, &sequence, now, out);
    }
    let end = begin_alone(state, run, count, op, now, out)?;
    go_on(state, run, end, now, out)
}

/// A compound of at most 16 operations and a tag of at most 1,024 bytes, which came from a node under a number; it is `now`, in
/// seconds. It runs to the first operation that waits, or to its reply. Takes memory.
pub fn run_compound(
    state: &mut State,
    node: NodeId,
    xid: u32,
    compound: &Compound<'_>,
    now: u64,
    out: &mut Outbox,
) -> Result<(), NoMemory>
    requires few { length compound.now.ops.values ≤ 16 }
    requires tag { length compound.now.tag ≤ 1024 }
    ensures { OnOk result (HasMadeStep (runs_compound now state.old node xid compound.now) out.old state.new out.new) }
{
    let mut run = Run {
        tag: compound.tag(),
        ops: compound.ops(),
        so_far: Progress {
            node,
            xid,
            results: Results::new(state.alloc),
            slot: None,
            is_kept: false,
            current: None,
        },
    };
    match run.ops.next() {
        NextOp::Op(op) => begin_with(state, &mut run, compound.count(), &op, now, out),
        // what ends it is told again where the compound goes on
        _ => go_on(state, &mut run, OpEnd::Goes, now, out),
    }
}
