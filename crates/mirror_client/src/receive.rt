//! Records that come to a client.

ghost use Rattle.std.specs.Prelude.{OnOk};
ghost use Rattle.rpc_record.specs.Calls.{call_at};
ghost use Rattle.rpc_record.specs.Replies.{reply_at};
ghost use Rattle.client_callbacks.specs.Callbacks.{callback_of};
ghost use Rattle.mirror_client.specs.ClientRule.{found_reply, found_call, record_from, client_recorded};
ghost use Rattle.client_state.specs.QueueSteps.{HasStepped};

use crate::client::Client;
use crate::events::replied;
use client_callbacks::take_callback;
use client_calls::end_event;
use client_state::State;
use cluster_model::{NodeId, Outbox};
use ff_xdr::NoMemory;
use rpc_record::Reply;

/// What is no reply in its form is passed over.
fn find_reply(
    client: &mut State,
    from: NodeId,
    message: &[u8],
    now: u64,
    out: &mut Outbox,
) -> Result<(), NoMemory>
    ensures { OnOk result (HasStepped (found_reply from (reply_at message.now) now client.old) out.old client.new out.new) }
{
    match Reply::read(message) {
        Ok(reply) => replied(client, from, &reply, now, out),
        Err(_) => Ok(()),
    }
}

/// A callback is answered before the calls that it brings.
fn find_call(client: &mut State, message: &[u8], now: u64, out: &mut Outbox) -> Result<(), NoMemory>
    ensures { OnOk result (HasStepped (found_call (callback_of (call_at message.now) client.old) message.now now client.old) out.old client.new out.new) }
{
    let Some(reply) = take_callback(client, message)? else {
        return find_reply(client, NodeId::Mds, message, now, out);
    };
    out.sends.push((NodeId::Mds, reply))?;
    end_event(client, out)
}

/// Callbacks come from the metadata server alone.
fn record_from(
    client: &mut State,
    from: NodeId,
    message: &[u8],
    now: u64,
    out: &mut Outbox,
) -> Result<(), NoMemory>
    ensures { OnOk result (HasStepped (record_from from message.now now client.old) out.old client.new out.new) }
{
    match from {
        NodeId::Mds => find_call(client, message, now, out),
        NodeId::Server(server) => find_reply(client, NodeId::Server(server), message, now, out),
        NodeId::Client(_) => Ok(()),
    }
}

/// A record came from a node, at `now`, in seconds.
pub fn receive(
    client: &mut State,
    from: NodeId,
    message: &[u8],
    now: u64,
    out: &mut Outbox,
) -> Result<(), NoMemory>
    ensures { OnOk result (HasStepped (client_recorded from message.now now client.old) out.old client.new out.new) }
{
    if client.has_left {
        return Ok(());
    }
    record_from(client, from, message, now, out)
}
