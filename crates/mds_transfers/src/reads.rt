//! READ (RFC 8881, section 18.22).

ghost use Rattle.std.specs.Prelude.{◌≡◌};
ghost use Rattle.cluster_model.specs.declared.outbox.Outbox.{Outbox};
ghost use Rattle.nfs4_file_ops.specs.Read.{read4_args_value};
ghost use Rattle.mds_rule.specs.MdsStates.{served};
ghost use Rattle.mds_rule.specs.FileOps.{kept_so_far, read_length, reads_at, runs_read};
ghost use Rattle.compound_run.specs.CompoundRuns.{HasRoomForResults, HasOperated, AddsResult};

use cluster_model::{FileId, PIECE_SIZE};
use compound_run::{OpEnd, Run};
use ff_xdr::NoMemory;
use mds_names::{named_in, phase_now};
use mds_refusals::{ReadAsk, try_read};
use mds_state::State;
use nfs4_compound::nfs4_file_ops::Read4Args;
use nfs4_types::Stat4;

/// How many bytes the results so far have, where the reply is to be kept.
fn kept_so_far(run: &Run<'_>) -> Option<usize>
    ensures { result ≡ kept_so_far run.now }
{
    if !run.so_far.is_kept {
        return None;
    }
    Some(run.size())
}

/// How many bytes are read: at most 65,536.
fn read_length(count: u32) -> u32
    ensures { result ≡ read_length count }
{
    count.min(PIECE_SIZE)
}

/// A READ of a file begins, and the compound waits for it. Takes memory.
fn begin_read(
    state: &mut State,
    run: &mut Run<'_>,
    file: FileId,
    at: u64,
    count: u32,
) -> Result<OpEnd, NoMemory>
    requires { HasRoomForResults run.old }
    ensures op { (out : Outbox) → HasOperated (reads_at state.old run.old file at count (served state.old file)) out result state.new run.new out }
    ensures on { AddsResult run.old result run.new }
{
    if state.files.get(file).is_none() {
        return run.refuse(25, Stat4::Stale);
    }
    let compound = run.keep(state.alloc)?;
    state.files.begin_read(file, compound, at, count)?;
    Ok(OpEnd::Waits)
}

/// READ: at most 65,536 bytes are read from a mirror of the current file, and the compound waits for them. Takes memory.
pub fn read(state: &mut State, run: &mut Run<'_>, args: &Read4Args) -> Result<OpEnd, NoMemory>
    requires { HasRoomForResults run.old }
    ensures op { (out : Outbox) → HasOperated (runs_read state.old run.old (read4_args_value args.now)) out result state.new run.new out }
    ensures on { AddsResult run.old result run.new }
{
    let ask = ReadAsk {
        named: named_in(state, run, args.stateid),
        count: args.count,
        kept: kept_so_far(run),
        phase: phase_now(state, run),
    };
    match try_read(run.so_far.current, ask) {
        Ok(file) => begin_read(state, run, file, args.offset, read_length(args.count)),
        Err(status) => run.refuse(25, status),
    }
}
