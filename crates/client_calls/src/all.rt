//! The calls that go out at the end of an event.

ghost use Rattle.std.specs.Prelude.{◌≡◌, OnOk};
ghost use Rattle.client_calls.specs.ClientCalls.{calls_all, ends_event};
ghost use Rattle.client_state.specs.QueueSteps.{HasStepped};

use crate::calls::call_mirrors;
use crate::compounds::call_mds;
use client_mds_calls::MdsAsk;
use client_state::State;
use cluster_model::Outbox;
use ff_xdr::NoMemory;

/// The calls go out: first those to the mirrors, then the compound that is due, where the head of the queue wants
/// this.
fn call_all(client: &mut State, wants: Option<MdsAsk>, out: &mut Outbox) -> Result<(), NoMemory>
    ensures { OnOk result (HasStepped (calls_all wants client.old) out.old client.new out.new) }
{
    call_mirrors(client, out)?;
    call_mds(client, wants, out)
}

/// The queue is run, and then the calls go out.
pub fn end_event(client: &mut State, out: &mut Outbox) -> Result<(), NoMemory>
    ensures { OnOk result (HasStepped (ends_event client.old) out.old client.new out.new) }
{
    let wants = client.run_queue(out)?;
    call_all(client, wants, out)
}
