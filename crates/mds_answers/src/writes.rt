//! An own WRITE that has ended, and its compound that goes on (RFC 8881, section 18.32).

ghost use Rattle.std.specs.Prelude.{◌≡◌, length, OnOk};
ghost use Rattle.cluster_model.specs.DsCalls.{plain_ds_call, plain_ds_reply};
ghost use Rattle.mds_rule.specs.MdsStates.{MdsValue};
ghost use Rattle.mds_rule.specs.Answers.{attributes_shown, fileid_of, sees_ctime, write_answer};
ghost use Rattle.compound_run.specs.CompoundRuns.{HasRoomForResults, HasOperated, AddsResult, HasMadeStep};
ghost use Rattle.mds_answers.specs.Resumed.{write_goes_on};

use cluster_model::{DsCall, DsReply, FileId, MirrorId, Outbox};
use compound_run::{OpEnd, Run};
use ff_xdr::NoMemory;
use file_notes::{attributes_shown, fileid_of};
use mds_compounds::go_on;
use mds_file::FileInput;
use mds_state::{State, take_input};
use mds_transfers::write_result;
use nfs4_types::Stat4;
use served_files::EndedWrite;

/// The ctime that an answer to a call of the WRITE shows is the last seen there. Takes memory.
pub fn see_ctime(
    state: &mut State,
    file: FileId,
    server: u32,
    call: &DsCall<'_>,
    reply: &DsReply<'_>,
    out: &mut Outbox,
) -> Result<(), NoMemory>
    ensures steps { OnOk result (HasMadeStep (sees_ctime state.old file server (fileid_of (plain_ds_call call.now) (plain_ds_reply reply.now)) (attributes_shown (plain_ds_reply reply.now))) out.old state.new out.new) }
    ensures silent { OnOk result (out.new.sends.items ≡ out.old.sends.items) }
{
    let Some(fileid) = fileid_of(call, reply) else {
        return Ok(());
    };
    let Some(shown) = attributes_shown(reply) else {
        return Ok(());
    };
    let input = FileInput::Sees {
        id: MirrorId { server, fileid },
        seen: shown.seen,
    };
    take_input(state, file, input, out)
}

/// The WRITE of so many bytes is done, or every mirror has failed it, which is an IO error. Takes memory.
fn end_write(run: &mut Run<'_>, count: u32, has_failed: bool) -> Result<OpEnd, NoMemory>
    requires { HasRoomForResults run.old }
    ensures op { (m : MdsValue) (out : Outbox) → HasOperated (write_answer m run.old count has_failed) out result m run.new out }
    ensures on { AddsResult run.old result run.new }
{
    if has_failed {
        return run.refuse(38, Stat4::Io);
    }
    run.give(&write_result(count))
}

/// The period of a WRITE ends and its compound goes on, where the WRITE has ended; it is `now`, in seconds. Takes memory.
pub fn resume_write(
    state: &mut State,
    file: FileId,
    ended: Option<EndedWrite>,
    now: u64,
    out: &mut Outbox,
) -> Result<(), NoMemory>
    ensures { OnOk result (HasMadeStep (write_goes_on now state.old file ended) out.old state.new out.new) }
{
    let Some(ended) = ended else {
        return Ok(());
    };
    let EndedWrite {
        compound,
        at,
        bytes,
        causes,
        has_failed,
    } = ended;
    let bytes = bytes.bytes();
    take_input(state, file, FileInput::OwnEnds { causes, at, bytes }, out)?;
    let (text, so_far) = compound.open();
    let mut run = text.resume(so_far);
    let end = end_write(&mut run, bytes.len() as u32, has_failed)?;
    go_on(state, &mut run, end, now, out)
}
