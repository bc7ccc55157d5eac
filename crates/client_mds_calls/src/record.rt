//! Calls as records.

ghost use Rattle.std.specs.Prelude.{◌≤◌, ◌↔◌, IsTrue, length};
ghost use Rattle.ff_xdr.specs.Calls.{Puts, Grows};
ghost use Rattle.client_compounds.specs.MdsArguments.{compound_args};
ghost use Rattle.client_mds_calls.specs.MdsCalls.{OnSlot, plain_mds_call, plain_slot_call};
ghost use Rattle.client_mds_calls.specs.MdsCompounds.{FitsCompound, mds_call_bytes, mds_ops};

use crate::call::{MdsCall, SlotCall};
use client_compounds::{Start, put_body, put_start};
use client_file_calls::{
    put_device_info, put_layout_get, put_layout_return, put_open, put_read, put_write,
};
use client_session_calls::{put_create_session, put_exchange_id, put_reclaim_complete, put_renew};
use ff_xdr::{NoMemory, Out};
use nfs4_types::MAX_OPAQUE4;
use std::alloc::Global;

/// The most data servers of a GETDEVICEINFO, and the most mirrors of a report.
pub const MOST: usize = 4;

/// Appends the arguments of a request on a slot, or nothing.
fn put_on_slot(
    alloc: Global,
    start: Start,
    owner: &[u8],
    call: &SlotCall<'_>,
    out: &mut Out,
) -> Result<(), NoMemory>
    requires owner { length owner.now ≤ 1024 }
    requires room { FitsCompound (OnSlot start.session start.sequence (plain_slot_call call.now)) }
    ensures { Puts out.old result out.new (compound_args (mds_ops owner.now (OnSlot start.session start.sequence (plain_slot_call call.now)))) }
{
    match call {
        SlotCall::ReclaimComplete => put_reclaim_complete(start, out),
        SlotCall::Open { name } => put_open(start, owner, name, out),
        SlotCall::LayoutGet { file } => put_layout_get(start, *file, out),
        SlotCall::DeviceInfo { servers } => put_device_info(start, servers, out),
        SlotCall::Write { file, at, bytes } => put_write(start, *file, *at, bytes, out),
        SlotCall::Read { file, at, count } => put_read(start, *file, *at, *count, out),
        SlotCall::LayoutReturn {
            file,
            stateid,
            failed,
        } => put_layout_return(alloc, start, *file, *stateid, failed, out),
        SlotCall::Renew => put_renew(start, out),
    }
}

/// Appends the arguments, or nothing.
fn put_args(alloc: Global, owner: &[u8], call: &MdsCall<'_>, out: &mut Out) -> Result<(), NoMemory>
    requires owner { length owner.now ≤ 1024 }
    requires room { FitsCompound (plain_mds_call call.now) }
    ensures { Puts out.old result out.new (compound_args (mds_ops owner.now (plain_mds_call call.now))) }
{
    match call {
        MdsCall::ExchangeId { verifier } => put_exchange_id(owner, *verifier, out),
        MdsCall::CreateSession { clientid, sequence } => {
            put_create_session(*clientid, *sequence, out)
        }
        MdsCall::OnSlot {
            session,
            sequence,
            call,
        } => {
            let start = Start {
                session: *session,
                sequence: *sequence,
            };
            put_on_slot(alloc, start, owner, call, out)
        }
    }
}

/// Appends the record; at an error a part of it may stand.
fn put(
    alloc: Global,
    xid: u32,
    owner: &[u8],
    call: &MdsCall<'_>,
    out: &mut Out,
) -> Result<(), NoMemory>
    requires owner { length owner.now ≤ 1024 }
    requires room { FitsCompound (plain_mds_call call.now) }
    ensures { Grows out.old result out.new (mds_call_bytes xid owner.now (plain_mds_call call.now)) }
{
    put_start(xid, out)?;
    put_body(out)?;
    put_args(alloc, owner, call, out)?;
    Ok(())
}

/// Such a call of such a client has a record: `owner` has at most 1,024 bytes, the name of an OPEN and the
/// data of a WRITE fewer than 2^32, and a GETDEVICEINFO and a report name at most four.
pub fn fits(owner: &[u8], call: &MdsCall<'_>) -> bool
    ensures { IsTrue result ↔ ((length owner.now ≤ 1024) × FitsCompound (plain_mds_call call.now)) }
{
    if owner.len() > MAX_OPAQUE4 as usize {
        return false;
    }
    let MdsCall::OnSlot { call, .. } = call else {
        return true;
    };
    match call {
        SlotCall::Open { name } => name.len() <= u32::MAX as usize,
        SlotCall::Write { bytes, .. } => bytes.len() <= u32::MAX as usize,
        SlotCall::DeviceInfo { servers } => servers.len() <= MOST,
        SlotCall::LayoutReturn { failed, .. } => failed.len() <= MOST,
        _ => true,
    }
}

/// Appends the record of a call (RFC 5531, section 9), or nothing: transaction number `xid`, of the client
/// with this owner (RFC 8881, section 3.3.10.1). It is a COMPOUND of minor version 1 (RFC 8881, section
/// 16.2), by AUTH_NONE. `alloc` gives the memory for the report of a LAYOUTRETURN.
pub fn put_mds_call(
    alloc: Global,
    xid: u32,
    owner: &[u8],
    call: &MdsCall<'_>,
    out: &mut Out,
) -> Result<(), NoMemory>
    requires owner { length owner.now ≤ 1024 }
    requires room { FitsCompound (plain_mds_call call.now) }
    ensures { Puts out.old result out.new (mds_call_bytes xid owner.now (plain_mds_call call.now)) }
{
    let mark = out.len();
    match put(alloc, xid, owner, call, out) {
        Ok(()) => Ok(()),
        Err(e) => {
            out.truncate(mark);
            Err(e)
        }
    }
}
