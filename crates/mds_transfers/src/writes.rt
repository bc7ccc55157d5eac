//! WRITE (RFC 8881, section 18.32).

ghost use Rattle.std.specs.Prelude.{◌≡◌, ◌≤◌, ◌+◌, length};
ghost use Rattle.ff_xdr.specs.Form.{Fits};
ghost use Rattle.cluster_model.specs.declared.limits.TheConstants.{MAX_FILE, PIECE_SIZE};
ghost use Rattle.nfs4_file_ops.specs.Write.{write4_args_value};
ghost use Rattle.nfs4_types.specs.declared.status.Stat4.TheVariants.{Delay};
ghost use Rattle.nfs4_compound.specs.Results.{resop4, op_res_value};
ghost use Rattle.mds_rule.specs.ServedFiles.{asks_back};
ghost use Rattle.mds_rule.specs.FileOps.{write_result, ends_by, runs_write};
ghost use Rattle.mds_transfers.specs.WrittenBytes.{writes_bytes};
ghost use Rattle.compound_run.specs.CompoundRuns.{HasRoomForResults, HasOperated, AddsResult};

use crate::commits::WRITE_VERIFIER;
use cluster_model::{FileId, Outbox};
use compound_run::{OpEnd, Run};
use ff_xdr::NoMemory;
use mds_file::FileInput;
use mds_names::{current_file, named_in, phase_now, uids_left};
use mds_refusals::{WriteAsk, try_write};
use mds_state::{State, ask_back, take_input};
use nfs4_compound::OpRes;
use nfs4_compound::nfs4_file_ops::{StableHow4, Write4Args, Write4Ok};
use nfs4_types::{OpResult, Stat4};

/// The result of a WRITE of so many bytes, which are on disks: FILE_SYNC4.
pub fn write_result(count: u32) -> OpRes<'static>
    ensures value { op_res_value result ≡ write_result count }
    ensures fits { Fits resop4 (op_res_value result) }
{
    OpRes::Write(OpResult::Done(Write4Ok {
        count,
        committed: StableHow4::FileSync,
        verifier: WRITE_VERIFIER,
    }))
}

/// A period of the metadata server's own begins, its WRITE goes to each live mirror, and the compound waits for it. One without
/// bytes is done. Takes memory.
fn begin_write(
    state: &mut State,
    run: &mut Run<'_>,
    file: FileId,
    at: u64,
    bytes: &[u8],
    out: &mut Outbox,
) -> Result<OpEnd, NoMemory>
    requires room { HasRoomForResults run.old }
    requires few { length bytes.now ≤ PIECE_SIZE }
    requires within { 1 ≤ length bytes.now → at + length bytes.now ≤ MAX_FILE }
    ensures op { HasOperated (writes_bytes state.old run.old file at bytes.now) out.old result state.new run.new out.new }
    ensures on { AddsResult run.old result run.new }
{
    if bytes.is_empty() {
        return run.give(&write_result(0));
    }
    take_input(state, file, FileInput::OwnWrite { at, bytes }, out)?;
    let compound = run.keep(state.alloc)?;
    state.files.begin_write(file, compound, at, bytes)?;
    Ok(OpEnd::Waits)
}

/// The layout that a client has of the file is asked back, and the WRITE is to come again. Takes memory.
fn delay_write(
    state: &mut State,
    run: &mut Run<'_>,
    file: FileId,
    now: u64,
    out: &mut Outbox,
) -> Result<OpEnd, NoMemory>
    requires { HasRoomForResults run.old }
    ensures op { HasOperated (ends_by (asks_back state.old file now) run.old 38 Delay) out.old result state.new run.new out.new }
    ensures on { AddsResult run.old result run.new }
{
    ask_back(state, file, now, out)?;
    run.refuse(38, Stat4::Delay)
}

/// WRITE: the bytes are written to each live mirror of the current file, and the compound waits for it; where a client holds the
/// file its layout is asked back. It is `now`, in seconds. Takes memory.
pub fn write(
    state: &mut State,
    run: &mut Run<'_>,
    args: &Write4Args<'_>,
    now: u64,
    out: &mut Outbox,
) -> Result<OpEnd, NoMemory>
    requires { HasRoomForResults run.old }
    ensures op { HasOperated (runs_write state.old run.old now (write4_args_value args.now)) out.old result state.new run.new out.new }
    ensures on { AddsResult run.old result run.new }
{
    let bytes = args.bytes.bytes;
    let ask = WriteAsk {
        named: named_in(state, run, args.stateid),
        offset: args.offset,
        length: bytes.len(),
        phase: phase_now(state, run),
        uids_left: uids_left(state),
    };
    match try_write(run.so_far.current, ask) {
        Ok(file) => begin_write(state, run, file, args.offset, bytes, out),
        Err(Stat4::Delay) => delay_write(state, run, current_file(run), now, out),
        Err(status) => run.refuse(38, status),
    }
}
