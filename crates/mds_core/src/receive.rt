//! Records that come to a metadata server.

ghost use Rattle.std.specs.Prelude.{◌≡◌, OnOk};
ghost use Rattle.mds_rule.specs.Events.{takes_record};
ghost use Rattle.compound_run.specs.CompoundRuns.{HasMadeStep};

use cluster_model::{NodeId, Outbox};
use ff_xdr::NoMemory;
use mds_answers::take_answer;
use mds_compounds::run_compound;
use mds_receive::{Incoming, receive_record};
use mds_sends::call_due;
use mds_state::State;

/// A record came from a node; it is `now`, in seconds. Takes memory.
pub fn receive(
    state: &mut State,
    from: NodeId,
    message: &[u8],
    now: u64,
    out: &mut Outbox,
) -> Result<(), NoMemory>
    ensures { OnOk result (HasMadeStep (takes_record now state.old from message.now) out.old state.new out.new) }
{
    match receive_record(state.alloc, message)? {
        Incoming::Nothing => Ok(()),
        Incoming::Reply(reply) => {
            take_answer(state, from, &reply, now, out)?;
            call_due(state, out)
        }
        Incoming::Answered(bytes) => {
            out.sends.push((from, bytes))?;
            Ok(())
        }
        Incoming::Compound { xid, compound } => {
            run_compound(state, from, xid, &compound, now, out)?;
            call_due(state, out)
        }
    }
}
