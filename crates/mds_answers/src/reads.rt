//! A READ that has ended, and its compound that goes on (RFC 8881, section 18.22).

ghost use Rattle.std.specs.Prelude.{◌≡◌, ◌<◌, ◌^◌, ◌++◌, ◌∷◌, [], length, OnOk, IfOk};
ghost use Rattle.cluster_model.specs.declared.entry.Entry.TheVariants.{ReadAnswer};
ghost use Rattle.mds_rule.specs.MdsStates.{MdsValue};
ghost use Rattle.served_files.specs.Waiting.{IsFew, GivesFew};
ghost use Rattle.compound_run.specs.CompoundRuns.{HasRoomForResults, HasOperated, AddsResult, HasMadeStep};
ghost use Rattle.mds_answers.specs.Resumed.{read_ended, read_goes_on};

use cluster_model::{Entry, FileId, Outbox};
use compound_run::{OpEnd, Run};
use ff_xdr::{Data, NoMemory};
use mds_compounds::go_on;
use mds_io::ReadEnd;
use mds_state::State;
use nfs4_compound::OpRes;
use nfs4_compound::nfs4_file_ops::Read4Ok;
use nfs4_types::{OpResult, OpaqueBody, Stat4};
use served_files::EndedRead;
use std::alloc::Global;

/// What the user of the READ is told is entered: this status and these bytes. Takes memory.
fn enter_answer(
    alloc: Global,
    file: FileId,
    status: u32,
    bytes: &[u8],
    out: &mut Outbox,
) -> Result<(), NoMemory>
    ensures entries { OnOk result (out.new.entries.items ≡ out.old.entries.items ++ ReadAnswer file status bytes.now ∷ []) }
    ensures sends { out.new.sends.items ≡ out.old.sends.items }
{
    let bytes = Data::of(alloc, bytes)?;
    out.entries.push(Entry::ReadAnswer {
        file,
        status,
        bytes,
    })?;
    Ok(())
}

/// The READ is done, with its bytes; or no mirror has answered it, which is an IO error. Takes memory.
fn end_read(
    alloc: Global,
    file: FileId,
    run: &mut Run<'_>,
    end: &ReadEnd,
    out: &mut Outbox,
) -> Result<OpEnd, NoMemory>
    requires room { HasRoomForResults run.old }
    requires few { IsFew end.now }
    ensures op { (m : MdsValue) → HasOperated (read_ended m file run.old end.now) out.old result m run.new out.new }
    ensures on { AddsResult run.old result run.new }
{
    match end {
        ReadEnd::Bytes { eof, bytes } => {
            let bytes = bytes.bytes();
            enter_answer(alloc, file, 0, bytes, out)?;
            run.give(&OpRes::Read(OpResult::Done(Read4Ok {
                eof: *eof,
                bytes: OpaqueBody { bytes },
            })))
        }
        ReadEnd::AllFailed { .. } => {
            enter_answer(alloc, file, 5, &[], out)?;
            run.refuse(25, Stat4::Io)
        }
    }
}

/// The compound of a READ goes on, where the READ has ended; it is `now`, in seconds. Takes memory.
pub fn resume_read(
    state: &mut State,
    file: FileId,
    ended: Option<EndedRead>,
    now: u64,
    out: &mut Outbox,
) -> Result<(), NoMemory>
    requires { GivesFew ended }
    ensures { OnOk result (HasMadeStep (read_goes_on now state.old file ended) out.old state.new out.new) }
{
    let Some(EndedRead { compound, end }) = ended else {
        return Ok(());
    };
    let (text, so_far) = compound.open();
    let mut run = text.resume(so_far);
    let end = end_read(state.alloc, file, &mut run, &end, out)?;
    go_on(state, &mut run, end, now, out)
}
