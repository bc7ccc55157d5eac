//! A client that leaves the protocol.

ghost use Rattle.std.specs.Prelude.{◌≡◌, ◌≤◌, true, length, OnOk};
ghost use Rattle.cluster_model.specs.declared.limits.TheConstants.{PIECE_SIZE};
ghost use Rattle.mirror_client.specs.ClientRule.{turned, mirror_of_place, strays};
ghost use Rattle.client_state.specs.QueueSteps.{HasStepped};

use client_calls::xid_after;
use client_state::State;
use cluster_model::{DsCall, Entry, Mirror, Mirrors, NodeId, Outbox};
use ds_calls::ds_record;
use ff_xdr::{Data, NoMemory};

/// The mirror at this place of a layout, from 1.
fn mirror_of_place(mirrors: &Mirrors, place: u32) -> Option<Mirror>
    ensures { result ≡ mirror_of_place mirrors.now place }
{
    if place == 0 {
        return None;
    }
    mirrors.get(place as usize - 1)
}

/// It leaves the protocol.
pub fn turn(client: &mut State)
    ensures { client.new ≡ turned client.old }
{
    client.has_left = true;
}

/// It sends a WRITE of at most 65,536 bytes to the mirror at this place of its layout, from 1, while no
/// LAYOUTRETURN of it was sent.
pub fn stray(
    client: &mut State,
    place: u32,
    at: u64,
    bytes: &[u8],
    out: &mut Outbox,
) -> Result<(), NoMemory>
    requires left { client.old.has_left ≡ true }
    requires few { length bytes.now ≤ PIECE_SIZE }
    ensures { OnOk result (HasStepped (strays client.old.file client.old.layout place at bytes.now client.old) out.old client.new out.new) }
{
    let Some(file) = client.file else {
        return Ok(());
    };
    let Some(layout) = &client.layout else {
        return Ok(());
    };
    if layout.was_sent || client.next_xid == 0 {
        return Ok(());
    }
    let Some(mirror) = mirror_of_place(&layout.mirrors, place) else {
        return Ok(());
    };
    let cred = layout.writer.cred();
    let call = DsCall::Write {
        fileid: mirror.id.fileid,
        at,
        synced: false,
        bytes,
    };
    let message = ds_record(
        client.alloc,
        client.next_xid,
        client.name.bytes(),
        cred,
        &call,
    )?;
    let bytes = Data::of(client.alloc, bytes)?;
    out.entries.push(Entry::Rogue {
        file: file.file,
        cred,
        at,
        bytes,
    })?;
    out.sends.push((NodeId::Server(mirror.id.server), message))?;
    client.next_xid = xid_after(client.next_xid);
    Ok(())
}
