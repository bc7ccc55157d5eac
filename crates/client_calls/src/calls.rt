//! Calls to the mirrors of the layout.

ghost use Rattle.std.specs.Prelude.{◌≡◌, ◌≤◌, length, IfOk, OnOk, if◌then◌else◌};
ghost use Rattle.mirror_writer.specs.Writers.{next_sent};
ghost use Rattle.client_calls.specs.ClientCalls.{xid_after, calls_under, calls_mirror, calls_two, calls_mirrors};
ghost use Rattle.client_state.specs.QueueSteps.{HasStepped};
ghost use Rattle.client_calls.specs.CallSteps.{HasSent};

use client_state::{Layout, State};
use cluster_model::{NodeId, Outbox};
use ds_calls::ds_record;
use ff_xdr::NoMemory;
use std::alloc::Global;

/// The number behind a call's; 0 behind the last, so that none is left.
pub fn xid_after(xid: u32) -> u32
    ensures { result ≡ xid_after xid }
{
    if xid == u32::MAX {
        return 0;
    }
    xid + 1
}

/// The number behind a call's, if it was sent.
fn xid_behind(was_sent: bool, xid: u32) -> u32
    ensures { result ≡ (if was_sent then xid_after xid else xid) }
{
    if was_sent {
        return xid_after(xid);
    }
    xid
}

/// A call goes out to the first mirror to which one waits. Answers whether one does.
fn call_first(
    layout: &mut Layout,
    alloc: Global,
    name: &[u8],
    xid: u32,
    out: &mut Outbox,
) -> Result<bool, NoMemory>
    requires { length name.now ≤ 255 }
    ensures { IfOk result (λ sent. HasSent (next_sent layout.old.writer xid) name.now xid layout.old sent out.old layout.new out.new) }
{
    let cred = layout.writer.cred();
    let Some((id, call)) = layout.writer.next_call(xid) else {
        return Ok(false);
    };
    let message = ds_record(alloc, xid, name, cred, &call)?;
    out.sends.push((NodeId::Server(id.server), message))?;
    Ok(true)
}

/// A call goes out to the first mirror to which one waits, if there is one; none goes out without a number.
fn call_mirror(client: &mut State, out: &mut Outbox) -> Result<(), NoMemory>
    ensures { OnOk result (HasStepped (calls_mirror client.old) out.old client.new out.new) }
{
    if client.next_xid == 0 {
        return Ok(());
    }
    call_under(client, out)
}

/// A call goes out under the layout, if there is one.
fn call_under(client: &mut State, out: &mut Outbox) -> Result<(), NoMemory>
    ensures { OnOk result (HasStepped (calls_under client.old client.old.layout) out.old client.new out.new) }
{
    let (alloc, xid) = (client.alloc, client.next_xid);
    let Some(layout) = &mut client.layout else {
        return Ok(());
    };
    let was_sent = call_first(layout, alloc, client.name.bytes(), xid, out)?;
    client.next_xid = xid_behind(was_sent, xid);
    Ok(())
}

/// At most two calls.
fn call_two(client: &mut State, out: &mut Outbox) -> Result<(), NoMemory>
    ensures { OnOk result (HasStepped (calls_two client.old) out.old client.new out.new) }
{
    call_mirror(client, out)?;
    call_mirror(client, out)
}

/// Calls go out to the mirrors of the layout, which are at most four, by their places.
pub fn call_mirrors(client: &mut State, out: &mut Outbox) -> Result<(), NoMemory>
    ensures { OnOk result (HasStepped (calls_mirrors client.old) out.old client.new out.new) }
{
    call_two(client, out)?;
    call_two(client, out)
}
