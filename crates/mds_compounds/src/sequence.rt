//! SEQUENCE, the first operation of most compounds (RFC 8881, sections 2.10.6 and 18.46).

ghost use Rattle.std.specs.Prelude.{◌≡◌, ◌<◌, ◌++◌, ◌∷◌, [], length, OnOk};
ghost use Rattle.ff_xdr.specs.Form.{Fits};
ghost use Rattle.nfs4_compound.specs.Results.{resop4, op_res_value};
ghost use Rattle.compound_reply.specs.Replied.{success_reply};
ghost use Rattle.nfs4_session.specs.Requests.{pass_of};
ghost use Rattle.mds_rule.specs.MdsStates.{Replies};
ghost use Rattle.mds_rule.specs.Spelled.{spelled_send};
ghost use Rattle.mds_rule.specs.Compounds.{sequence_result, in_slot, begins_sequence};
ghost use Rattle.compound_run.specs.CompoundRuns.{HasRoomForResults, HasMadeStep, OnGoes};

use crate::finish::finish;
use crate::walk::go_on;
use cluster_model::{NodeId, Outbox};
use compound_reply::success_record;
use compound_run::{OpEnd, Run};
use ff_xdr::{Data, NoMemory};
use mds_state::State;
use nfs4_compound::OpRes;
use nfs4_compound::nfs4_session_ops::SequenceOk;
use nfs4_session::{Begin, SlotPass};
use nfs4_types::{OpResult, Sequence};
use std::alloc::Global;

/// The highest slot of a session, of eight.
pub const HIGHEST_SLOT: u32 = 7;

/// The result of a SEQUENCE that takes effect.
fn sequence_result(sequence: Sequence) -> OpRes<'static>
    ensures value { op_res_value result ≡ sequence_result sequence }
    ensures fits { Fits resop4 (op_res_value result) }
{
    OpRes::Sequence(OpResult::Done(SequenceOk {
        session: sequence.session,
        sequence: sequence.sequence,
        slot: sequence.slot,
        highest: HIGHEST_SLOT,
        target_highest: HIGHEST_SLOT,
        status_flags: 0,
    }))
}

/// The compound has this slot. Takes memory.
fn take_slot(run: &mut Run<'_>, slot: SlotPass, sequence: &Sequence) -> Result<OpEnd, NoMemory>
    requires room { HasRoomForResults run.old }
    requires first { run.old.results ≡ [] }
    requires slot { slot ≡ pass_of sequence.now }
    ensures { OnGoes result (run.new ≡ in_slot run.old sequence.now) }
{
    run.so_far.slot = Some(slot);
    run.so_far.is_kept = sequence.cachethis;
    run.give(&sequence_result(*sequence))
}

/// The reply that was kept goes to who sent the call of this number. Takes memory.
fn repeat(
    alloc: Global,
    node: NodeId,
    xid: u32,
    reply: &[u8],
    out: &mut Outbox,
) -> Result<(), NoMemory>
    ensures entries { out.new.entries.items ≡ out.old.entries.items }
    ensures sends { OnOk result (out.new.sends.items ≡ out.old.sends.items ++ spelled_send (Replies node (success_reply xid reply.now)) ∷ []) }
{
    let record = success_record(alloc, xid, reply)?;
    out.sends.push((node, Data::from_vec(record)))?;
    Ok(())
}

/// A compound whose first operation is this SEQUENCE: it takes effect once, and one that comes again is answered by what is kept of
/// it; it is `now`, in seconds. Takes memory.
pub fn begin_sequence(
    state: &mut State,
    run: &mut Run<'_>,
    sequence: &Sequence,
    now: u64,
    out: &mut Outbox,
) -> Result<(), NoMemory>
    requires room { length run.old.ops < 16 }
    requires first { run.old.results ≡ [] }
    ensures { OnOk result (HasMadeStep (begins_sequence now state.old run.old run.old.ops sequence.now) out.old state.new out.new) }
{
    // the session's last record came from this node; of a session that is not there nothing changes
    let _is_bound = state
        .sessions
        .bind(sequence.session, run.so_far.node)
        .is_ok();
    let alloc = state.alloc;
    match state.sessions.begin(sequence, now) {
        Begin::New { slot, .. } => {
            let end = take_slot(run, slot, sequence)?;
            go_on(state, run, end, now, out)
        }
        Begin::Replay(reply) => repeat(alloc, run.so_far.node, run.so_far.xid, reply, out),
        Begin::Refused(status) => {
            let end = run.refuse(53, status)?;
            go_on(state, run, end, now, out)
        }
    }
}
