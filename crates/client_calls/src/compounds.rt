//! Compounds to the metadata server.

ghost use Rattle.std.specs.Prelude.{◌≡◌, ◌≤◌, Some, length, IfOk, OnOk};
ghost use Rattle.client_mds_calls.specs.MdsCalls.{OnSlot, DeviceInfo, LayoutReturn, plain_mds_call, plain_slot_call};
ghost use Rattle.client_mds_calls.specs.MdsCalls as slot;
ghost use Rattle.client_mds_calls.specs.MdsCompounds.{FitsCompound};
ghost use Rattle.client_state.specs.declared.tie.Tie.TheVariants.{HasSession};
ghost use Rattle.client_state.specs.ClientQueue.{unknown_servers};
ghost use Rattle.client_calls.specs.ClientCalls.{failed_mirrors, open_call, through_call, devices_call, return_call, file_call, slot_call, on_slot, returning, asked_by, asks, calls_mds};
ghost use Rattle.client_calls.specs.CallSteps.{spelled, compound_message};
ghost use Rattle.client_state.specs.QueueSteps.{HasStepped, with_layout_at};

use crate::asks::{due_ask, may_ask};
use crate::calls::xid_after;
use client_mds_calls::{FailedMirror, MdsAsk, MdsCall, OpenFile, SlotCall, put_mds_call};
use client_state::{
    Asked, FileName, Layout, LayoutStage, OwnSession, State, Tie, UserRequest, is_layout_return,
    unknown_in,
};
use cluster_model::{NodeId, Outbox};
use ff_xdr::{Data, NoMemory, Out};
use mirror_writer::WriteBytes;
use std::alloc::Global;

/// The mirrors of a layout that failed, in its order.
fn failed_mirrors(alloc: Global, layout: &Layout) -> Result<Vec<FailedMirror>, NoMemory>
    ensures failed { IfOk result (λ failed. failed.items ≡ failed_mirrors layout.now.mirrors layout.now.statuses) }
    ensures few { IfOk result (λ failed. length failed.items ≤ 4) }
{
    let mut failed = Vec::new(alloc);
    for place in 0..layout.mirrors.len() {
        let Some(mirror) = layout.mirrors.get(place) else {
            return Ok(failed);
        };
        let Some(noted) = layout.statuses.get(place) else {
            return Ok(failed);
        };
        let Some(status) = noted else {
            continue;
        };
        failed.push(FailedMirror {
            server: mirror.id.server,
            status: *status,
        })?;
    }
    Ok(failed)
}

/// The record of a call, under the next number. It may be shared.
fn spell(client: &State, call: &MdsCall<'_>) -> Result<Option<Data>, NoMemory>
    requires { FitsCompound (plain_mds_call call.now) }
    ensures { IfOk result (λ message. message ≡ spelled client.now (Some (plain_mds_call call.now))) }
{
    let mut out = Out::new(client.alloc);
    put_mds_call(
        client.alloc,
        client.next_xid,
        client.name.bytes(),
        call,
        &mut out,
    )?;
    Ok(Some(Data::to_share(client.alloc, out.bytes())?))
}

/// The record of a request on slot 0 of the session.
fn spell_on_slot(
    client: &State,
    session: OwnSession,
    call: SlotCall<'_>,
) -> Result<Option<Data>, NoMemory>
    requires { FitsCompound (OnSlot session.id session.next (plain_slot_call call)) }
    ensures { IfOk result (λ message. message ≡ spelled client.now (on_slot (HasSession session) (Some (plain_slot_call call.entry)))) }
{
    spell(
        client,
        &MdsCall::OnSlot {
            session: session.id,
            sequence: session.next,
            call,
        },
    )
}

/// The record of a GETDEVICEINFO of the devices that are not known.
fn spell_devices(client: &State, session: OwnSession) -> Result<Option<Data>, NoMemory>
    ensures { IfOk result (λ message. message ≡ spelled client.now (on_slot (HasSession session) (devices_call client.now client.now.layout))) }
{
    let Some(layout) = &client.layout else {
        return Ok(None);
    };
    spell_unknown(client, session, layout)
}

/// The record of a GETDEVICEINFO of the devices of this layout that are not known.
fn spell_unknown(
    client: &State,
    session: OwnSession,
    layout: &Layout,
) -> Result<Option<Data>, NoMemory>
    ensures { IfOk result (λ message. message ≡ spelled client.now (on_slot (HasSession session) (Some (DeviceInfo (unknown_servers client.now layout.now))))) }
{
    let servers = unknown_in(client.alloc, &client.devices, &layout.mirrors)?;
    spell_on_slot(client, session, SlotCall::DeviceInfo { servers: &servers })
}

/// The record of the WRITE for the request at the head.
fn spell_through(
    client: &State,
    session: OwnSession,
    file: OpenFile,
) -> Result<Option<Data>, NoMemory>
    ensures { IfOk result (λ message. message ≡ spelled client.now (on_slot (HasSession session) (through_call file client.now.queue))) }
{
    let Some(UserRequest::Through { at, bytes }) = client.queue.front() else {
        return Ok(None);
    };
    spell_write(client, session, file, *at, bytes)
}

/// The record of a WRITE.
fn spell_write(
    client: &State,
    session: OwnSession,
    file: OpenFile,
    at: u64,
    bytes: &WriteBytes,
) -> Result<Option<Data>, NoMemory>
    ensures { IfOk result (λ message. message ≡ spelled client.now (on_slot (HasSession session) (Some (slot.Write file at bytes.now)))) }
{
    let bytes = bytes.bytes();
    spell_on_slot(client, session, SlotCall::Write { file, at, bytes })
}

/// The record of a LAYOUTRETURN, with a report of the mirrors that failed.
fn spell_return(
    client: &State,
    session: OwnSession,
    file: OpenFile,
) -> Result<Option<Data>, NoMemory>
    ensures { IfOk result (λ message. message ≡ spelled client.now (on_slot (HasSession session) (return_call file client.now.layout))) }
{
    let Some(layout) = &client.layout else {
        return Ok(None);
    };
    spell_report(client, session, file, layout)
}

/// The record of a LAYOUTRETURN of this layout.
fn spell_report(
    client: &State,
    session: OwnSession,
    file: OpenFile,
    layout: &Layout,
) -> Result<Option<Data>, NoMemory>
    ensures { IfOk result (λ message. message ≡ spelled client.now (on_slot (HasSession session) (Some (LayoutReturn file.file layout.now.stateid (failed_mirrors layout.now.mirrors layout.now.statuses))))) }
{
    let failed = failed_mirrors(client.alloc, layout)?;
    let call = SlotCall::LayoutReturn {
        file: file.file,
        stateid: layout.stateid,
        failed: &failed,
    };
    spell_on_slot(client, session, call)
}

/// The record of an OPEN for the request at the head.
fn spell_open(client: &State, session: OwnSession) -> Result<Option<Data>, NoMemory>
    ensures { IfOk result (λ message. message ≡ spelled client.now (on_slot (HasSession session) (open_call client.now.queue))) }
{
    let Some(UserRequest::Open(name)) = client.queue.front() else {
        return Ok(None);
    };
    spell_name(client, session, name)
}

/// The record of an OPEN of this name.
fn spell_name(
    client: &State,
    session: OwnSession,
    name: &FileName,
) -> Result<Option<Data>, NoMemory>
    ensures { IfOk result (λ message. message ≡ spelled client.now (on_slot (HasSession session) (Some (slot.Open name.now)))) }
{
    spell_on_slot(client, session, SlotCall::Open { name: name.text() })
}

/// The record of a request for the open file.
fn spell_for_file(
    client: &State,
    session: OwnSession,
    ask: MdsAsk,
) -> Result<Option<Data>, NoMemory>
    ensures { IfOk result (λ message. message ≡ spelled client.now (on_slot (HasSession session) (file_call client.now client.now.file ask))) }
{
    let Some(file) = client.file else {
        return Ok(None);
    };
    match ask {
        MdsAsk::ExchangeId => Ok(None),
        MdsAsk::CreateSession => Ok(None),
        MdsAsk::ReclaimComplete => Ok(None),
        MdsAsk::Open => Ok(None),
        MdsAsk::LayoutGet => spell_on_slot(client, session, SlotCall::LayoutGet { file }),
        MdsAsk::DeviceInfo { .. } => spell_devices(client, session),
        MdsAsk::Write => spell_through(client, session, file),
        MdsAsk::Read { at, count } => {
            spell_on_slot(client, session, SlotCall::Read { file, at, count })
        }
        MdsAsk::LayoutReturn => spell_return(client, session, file),
        MdsAsk::Renew => Ok(None),
    }
}

/// The record of a request on the slot.
fn spell_request(client: &State, session: OwnSession, ask: MdsAsk) -> Result<Option<Data>, NoMemory>
    ensures { IfOk result (λ message. message ≡ spelled client.now (on_slot (HasSession session) (slot_call client.now ask))) }
{
    match ask {
        MdsAsk::ReclaimComplete => spell_on_slot(client, session, SlotCall::ReclaimComplete),
        MdsAsk::Open => spell_open(client, session),
        MdsAsk::Renew => spell_on_slot(client, session, SlotCall::Renew),
        ask => spell_for_file(client, session, ask),
    }
}

/// The record of the compound that asks this; `None` where there is nothing to ask it of.
fn compound_message(client: &State, ask: MdsAsk) -> Result<Option<Data>, NoMemory>
    ensures { IfOk result (λ message. message ≡ compound_message client.now ask) }
{
    match (ask, client.tie) {
        (MdsAsk::ExchangeId, _) => spell(
            client,
            &MdsCall::ExchangeId {
                verifier: client.verifier,
            },
        ),
        (MdsAsk::CreateSession, Tie::HasClient { clientid, sequence }) => {
            spell(client, &MdsCall::CreateSession { clientid, sequence })
        }
        (MdsAsk::CreateSession, _) => Ok(None),
        (ask, Tie::HasSession(session)) => spell_request(client, session, ask),
        (_, _) => Ok(None),
    }
}

/// A LAYOUTRETURN is outstanding from now on.
fn begin_return(client: &mut State)
    ensures { client.new ≡ with_layout_at client.old (returning client.old.layout) }
{
    if let Some(layout) = &mut client.layout {
        layout.stage = LayoutStage::Returning;
        layout.was_sent = true;
    }
}

/// This is outstanding from now on, under the next number, with this record.
fn begin_ask(client: &mut State, ask: MdsAsk, message: &Data) -> Result<(), NoMemory>
    ensures { OnOk result (client.new ≡ asked_by client.old ask message.now) }
{
    client.asked = Some(Asked {
        xid: client.next_xid,
        ask,
        message: message.share(client.alloc)?,
        is_late: false,
    });
    client.again = None;
    client.next_xid = xid_after(client.next_xid);
    if is_layout_return(ask) {
        begin_return(client);
    }
    Ok(())
}

/// This is asked under the next number, where there is something to ask it of.
pub fn ask_mds(client: &mut State, ask: MdsAsk, out: &mut Outbox) -> Result<(), NoMemory>
    ensures { OnOk result (HasStepped (asks client.old (Some ask)) out.old client.new out.new) }
{
    let Some(message) = compound_message(client, ask)? else {
        return Ok(());
    };
    begin_ask(client, ask, &message)?;
    out.sends.push((NodeId::Mds, message))?;
    Ok(())
}

/// The compound that is due goes out, where none is outstanding and the head of the queue wants this.
pub fn call_mds(client: &mut State, wants: Option<MdsAsk>, out: &mut Outbox) -> Result<(), NoMemory>
    ensures { OnOk result (HasStepped (calls_mds wants client.old) out.old client.new out.new) }
{
    if !may_ask(client) {
        return Ok(());
    }
    let Some(ask) = due_ask(client, wants) else {
        return Ok(());
    };
    ask_mds(client, ask, out)
}
