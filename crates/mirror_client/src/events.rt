//! What happens to a client.

ghost use Rattle.std.specs.Prelude.{◌≡◌, OnOk, Some};
ghost use Rattle.rpc_record.specs.Replies.{rpc_reply};
ghost use Rattle.client_state.specs.ClientSends.{and_then};
ghost use Rattle.client_calls.specs.ClientCalls.{ends_event};
ghost use Rattle.mirror_client.specs.ClientRule.{with_request, client_requested, ticks_on, replied, mds_timed_out, timed_out_to, client_late, client_timed_out, stage_after_tick, client_at_tick, resends_late, is_stale_tie, renews, client_ticked};
ghost use Rattle.client_state.specs.QueueSteps.{HasStepped};

use crate::client::Client;
use crate::outstanding::is_outstanding_at;
use crate::replies::mds_replied;
use client_answers::{ds_answered, ds_timed_out};
use client_calls::{ask_mds, end_event, may_ask};
use client_mds_calls::MdsAsk;
use client_state::{LayoutStage, State, Tie, UserRequest};
use cluster_model::{Entry, NodeId, Outbox};
use ff_xdr::NoMemory;
use rpc_record::Reply;

/// After so many seconds a lease is renewed (RFC 8881, section 8.3).
pub const RENEWAL: u64 = 30;

/// What waited for the tick waits no longer.
fn after_tick(stage: LayoutStage) -> LayoutStage
    ensures { result ≡ stage_after_tick stage }
{
    match stage {
        LayoutStage::Writing => LayoutStage::Writing,
        LayoutStage::Ending => LayoutStage::Ending,
        LayoutStage::Deferred => LayoutStage::Ending,
        LayoutStage::Returning => LayoutStage::Returning,
    }
}

/// A request of the user.
pub fn request(client: &mut State, request: UserRequest, out: &mut Outbox) -> Result<(), NoMemory>
    ensures { OnOk result (HasStepped (client_requested request client.old) out.old client.new out.new) }
{
    if client.has_left {
        return Ok(());
    }
    take_request(client, request, out)
}

/// The request joins the queue.
fn take_request(client: &mut State, request: UserRequest, out: &mut Outbox) -> Result<(), NoMemory>
    ensures { OnOk result (HasStepped (ends_event (with_request request client.old)) out.old client.new out.new) }
{
    client.queue.push_back(request)?;
    end_event(client, out)
}

/// A reply counts from the node that was called alone.
pub fn replied(
    client: &mut State,
    from: NodeId,
    reply: &Reply<'_>,
    now: u64,
    out: &mut Outbox,
) -> Result<(), NoMemory>
    ensures { OnOk result (HasStepped (replied from (rpc_reply reply.now) now client.old) out.old client.new out.new) }
{
    match from {
        NodeId::Mds => mds_replied(client, reply, now, out),
        NodeId::Server(server) => {
            ds_answered(client, server, reply, out)?;
            end_event(client, out)
        }
        NodeId::Client(_) => Ok(()),
    }
}

/// The compound that is outstanding timed out: the same record goes out again.
fn mds_timed_out(client: &mut State, out: &mut Outbox) -> Result<(), NoMemory>
    ensures { OnOk result (HasStepped (mds_timed_out client.old.asked client.old) out.old client.new out.new) }
{
    let Some(asked) = &client.asked else {
        return Ok(());
    };
    let message = asked.message.share(client.alloc)?;
    out.entries.push(Entry::TimedOut {
        node: NodeId::Client(client.number),
        xid: asked.xid,
    })?;
    out.sends.push((NodeId::Mds, message))?;
    Ok(())
}

/// A call to this node timed out.
fn timed_out_to(client: &mut State, to: NodeId, out: &mut Outbox) -> Result<(), NoMemory>
    ensures { OnOk result (HasStepped (timed_out_to to client.old) out.old client.new out.new) }
{
    match to {
        NodeId::Mds => mds_timed_out(client, out),
        NodeId::Server(server) => {
            ds_timed_out(client, server, out)?;
            end_event(client, out)
        }
        NodeId::Client(_) => Ok(()),
    }
}

/// The call that is outstanding at this node, if one is, timed out.
fn time_out_outstanding(client: &mut State, to: NodeId, out: &mut Outbox) -> Result<(), NoMemory>
    ensures { OnOk result (HasStepped (client_timed_out to client.old) out.old client.new out.new) }
{
    if client.has_left {
        return Ok(());
    }
    timed_out_to(client, to, out)
}

/// The call of this number to this node timed out. One that is not outstanding there is passed over.
fn time_out_numbered(
    client: &mut State,
    to: NodeId,
    xid: u32,
    out: &mut Outbox,
) -> Result<(), NoMemory>
    ensures { OnOk result (HasStepped (client_late to (Some xid) client.old) out.old client.new out.new) }
{
    if !is_outstanding_at(client, to, xid) {
        return Ok(());
    }
    time_out_outstanding(client, to, out)
}

/// A call to this node timed out: the one of this number, or, without one, whichever is outstanding there.
pub fn time_out(
    client: &mut State,
    to: NodeId,
    xid: Option<u32>,
    out: &mut Outbox,
) -> Result<(), NoMemory>
    ensures { OnOk result (HasStepped (client_late to xid client.old) out.old client.new out.new) }
{
    match xid {
        Some(xid) => time_out_numbered(client, to, xid, out),
        None => time_out_outstanding(client, to, out),
    }
}

/// What waited for the tick waits no longer.
fn wake(client: &mut State)
    ensures { client.new ≡ client_at_tick client.old }
{
    client.waits = false;
    if let Some(layout) = &mut client.layout {
        layout.stage = after_tick(layout.stage);
    }
}

/// The record whose SEQUENCE was answered DELAY goes out again.
fn resend_late(client: &mut State, out: &mut Outbox) -> Result<(), NoMemory>
    ensures { OnOk result (HasStepped (resends_late client.old client.old.asked) out.old client.new out.new) }
{
    let Some(asked) = &mut client.asked else {
        return Ok(());
    };
    if !asked.is_late {
        return Ok(());
    }
    asked.is_late = false;
    let message = asked.message.share(client.alloc)?;
    out.sends.push((NodeId::Mds, message))?;
    Ok(())
}

/// Its last SEQUENCE that was answered is 30 s ago.
fn is_stale(client: &State, now: u64) -> bool
    ensures { result ≡ is_stale_tie now client.now.tie }
{
    let Tie::HasSession(session) = client.tie else {
        return false;
    };
    let Some(renewed) = session.renewed else {
        return false;
    };
    now >= RENEWAL && renewed <= now - RENEWAL
}

/// A SEQUENCE alone goes out, where nothing else is outstanding and it is time.
fn renew_lease(client: &mut State, now: u64, out: &mut Outbox) -> Result<(), NoMemory>
    ensures { OnOk result (HasStepped (renews now client.old) out.old client.new out.new) }
{
    if !may_ask(client) || !is_stale(client, now) {
        return Ok(());
    }
    ask_mds(client, MdsAsk::Renew, out)
}

/// Time passed; it is `now`, in seconds.
pub fn tick(client: &mut State, now: u64, out: &mut Outbox) -> Result<(), NoMemory>
    ensures { OnOk result (HasStepped (client_ticked now client.old) out.old client.new out.new) }
{
    if client.has_left {
        return Ok(());
    }
    wake(client);
    tick_on(client, now, out)
}

/// The queue is run, and what was late goes out again.
fn end_and_resend(client: &mut State, out: &mut Outbox) -> Result<(), NoMemory>
    ensures { OnOk result (HasStepped (and_then (ends_event client.old) (λ d. resends_late d d.asked)) out.old client.new out.new) }
{
    end_event(client, out)?;
    resend_late(client, out)
}

/// What a tick comes to, once nothing waits for it.
fn tick_on(client: &mut State, now: u64, out: &mut Outbox) -> Result<(), NoMemory>
    ensures { OnOk result (HasStepped (ticks_on now client.old) out.old client.new out.new) }
{
    end_and_resend(client, out)?;
    renew_lease(client, now, out)
}
