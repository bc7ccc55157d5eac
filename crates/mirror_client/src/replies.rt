//! Replies of the metadata server.

ghost use Rattle.std.specs.Prelude.{OnOk};
ghost use Rattle.rpc_record.specs.Replies.{rpc_reply};
ghost use Rattle.client_mds_calls.specs.MdsReplies.{reply_of_ask};
ghost use Rattle.mirror_client.specs.ClientRule.{mds_replied};
ghost use Rattle.client_state.specs.QueueSteps.{HasStepped};

use client_answers::mds_answered;
use client_calls::end_event;
use client_state::State;
use cluster_model::Outbox;
use ff_xdr::NoMemory;
use rpc_record::Reply;

/// A reply of the metadata server counts where it is to the compound that is outstanding.
pub fn mds_replied(
    client: &mut State,
    reply: &Reply<'_>,
    now: u64,
    out: &mut Outbox,
) -> Result<(), NoMemory>
    ensures { OnOk result (HasStepped (mds_replied client.old.asked reply.now.xid (λ kind. reply_of_ask kind (rpc_reply reply.now)) now client.old) out.old client.new out.new) }
{
    let Some(asked) = &client.asked else {
        return Ok(());
    };
    if asked.xid != reply.xid {
        return Ok(());
    }
    let ask = asked.ask;
    mds_answered(client, ask, reply, now, out)?;
    end_event(client, out)
}
