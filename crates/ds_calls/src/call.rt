//! Calls as records.

ghost use Rattle.std.specs.Prelude.{◌≡◌, ◌≤◌, ◌↔◌, IsTrue, length, IfOk};
ghost use Rattle.nfs3_wire.specs.declared.objects.TheConstants.{MAX_DATA};
ghost use Rattle.ff_xdr.specs.Form.{arm_spelling, arm_of};
ghost use Rattle.ff_xdr.specs.Calls.{Puts, Grows};
ghost use Rattle.nfs3_wire.specs.Calls.{calls, call_value};
ghost use Rattle.cluster_model.specs.DsCalls.{plain_ds_call, data_in};
ghost use Rattle.ds_calls.specs.MadeCalls.{nfs_call_of, ds_call_bytes};

use crate::commit::put_commit;
use crate::create::put_create;
use crate::header::{put_body, put_start};
use crate::read::put_read;
use crate::setattr::put_setattr;
use crate::write::put_write;
use cluster_model::{Cred, DsCall};
use ff_xdr::{Data, NoMemory, Out};
use nfs3_wire::MAX_DATA;
use std::alloc::Global;

/// The longest name of a machine, in bytes (RFC 5531, appendix A).
pub const MAX_MACHINE: usize = 255;

/// The number of the call's procedure (RFC 1813, section 3.3).
fn procedure_of(call: &DsCall<'_>) -> u32
    ensures { result ≡ arm_of calls (call_value (nfs_call_of (plain_ds_call call.now))) }
{
    match call {
        DsCall::SetAttr { .. } => 2,
        DsCall::Read { .. } => 6,
        DsCall::Write { .. } => 7,
        DsCall::Create { .. } => 8,
        DsCall::Commit { .. } => 21,
    }
}

/// Appends the arguments, or nothing.
fn put_args(call: &DsCall<'_>, out: &mut Out) -> Result<(), NoMemory>
    requires { length (data_in (plain_ds_call call.now)) ≤ MAX_DATA }
    ensures { Puts out.old result out.new (arm_spelling calls (call_value (nfs_call_of (plain_ds_call call.now)))) }
{
    match call {
        DsCall::Create { name, owner } => put_create(*name, *owner, out),
        DsCall::SetAttr {
            fileid,
            owner,
            guard,
        } => put_setattr(*fileid, *owner, *guard, out),
        DsCall::Write {
            fileid,
            at,
            synced,
            bytes,
        } => put_write(*fileid, *at, *synced, bytes, out),
        DsCall::Commit { fileid } => put_commit(*fileid, out),
        DsCall::Read { fileid, at, count } => put_read(*fileid, *at, *count, out),
    }
}

/// Appends the record; at an error a part of it may stand.
fn put(
    xid: u32,
    machine: &[u8],
    user: Cred,
    call: &DsCall<'_>,
    out: &mut Out,
) -> Result<(), NoMemory>
    requires machine { length machine.now ≤ MAX_MACHINE }
    requires data { length (data_in (plain_ds_call call.now)) ≤ MAX_DATA }
    ensures { Grows out.old result out.new (ds_call_bytes xid machine.now user.0 (plain_ds_call call.now)) }
{
    put_start(xid, out)?;
    put_body(procedure_of(call), machine, user, out)?;
    put_args(call, out)?;
    Ok(())
}

/// Such a call from such a machine has a record: `machine` has at most 255 bytes, and the data of a WRITE
/// at most 1,048,576.
pub fn fits(machine: &[u8], call: &DsCall<'_>) -> bool
    ensures { IsTrue result ↔ ((length machine.now ≤ MAX_MACHINE) × (length (data_in (plain_ds_call call.now)) ≤ MAX_DATA)) }
{
    let data = match call {
        DsCall::Write { bytes, .. } => bytes.len(),
        _ => 0,
    };
    machine.len() <= MAX_MACHINE && data <= MAX_DATA as usize
}

/// Appends the record of a call (RFC 5531, section 9), or nothing: transaction number `xid`, from this
/// machine, by this user, whose group has the same number. Its procedure and its arguments are those of
/// RFC 1813, sections 3.3.2, 3.3.6 to 3.3.8 and 3.3.21.
pub fn put_ds_call(
    xid: u32,
    machine: &[u8],
    user: Cred,
    call: &DsCall<'_>,
    out: &mut Out,
) -> Result<(), NoMemory>
    requires machine { length machine.now ≤ MAX_MACHINE }
    requires data { length (data_in (plain_ds_call call.now)) ≤ MAX_DATA }
    ensures { Puts out.old result out.new (ds_call_bytes xid machine.now user.0 (plain_ds_call call.now)) }
{
    let mark = out.len();
    match put(xid, machine, user, call, out) {
        Ok(()) => Ok(()),
        Err(e) => {
            out.truncate(mark);
            Err(e)
        }
    }
}

/// The record of a call, as `put_ds_call` appends it.
pub fn ds_record(
    alloc: Global,
    xid: u32,
    machine: &[u8],
    user: Cred,
    call: &DsCall<'_>,
) -> Result<Data, NoMemory>
    requires machine { length machine.now ≤ MAX_MACHINE }
    requires data { length (data_in (plain_ds_call call.now)) ≤ MAX_DATA }
    ensures { IfOk result (λ message. message ≡ ds_call_bytes xid machine.now user.0 (plain_ds_call call.now)) }
{
    let mut out = Out::new(alloc);
    put_ds_call(xid, machine, user, call, &mut out)?;
    Ok(Data::from_vec(out.into_bytes()))
}
