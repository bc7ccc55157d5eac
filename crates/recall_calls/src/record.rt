//! The record of a recall.

ghost use Rattle.std.specs.Prelude.{◌≡◌, IfOk};
ghost use Rattle.ff_xdr.specs.Calls.{Puts};
ghost use Rattle.rpc_record.specs.Calls.{call_bytes};
ghost use Rattle.recall_calls.specs.RecallCalls.{recall_args, recall_ops, callback_call, recall_bytes};

use crate::ops::{cb_sequence_op, layout_recall_op};
use cluster_model::FileId;
use ff_xdr::{Data, NoMemory, Out};
use nfs4_compound::put_cb_compound;
use nfs4_session::BackCall;
use nfs4_types::{Stateid, file_handle};
use rpc_record::{AUTH_NONE, Auth, Call};
use std::alloc::Global;

/// The version of the client's program of callbacks (RFC 8881, section 20).
pub const CALLBACK_VERSION: u32 = 1;

/// The procedure CB_COMPOUND (RFC 8881, section 20.2).
pub const CB_COMPOUND: u32 = 1;

/// The minor version (RFC 8881, section 2.7).
pub const MINOR_VERSION: u32 = 1;

/// Appends the arguments of the compound, or nothing.
#[tactic(auto, unfolding(crate::specs::RecallCalls::recall_args))]
fn put_args(call: &BackCall, file: FileId, stateid: Stateid, out: &mut Out) -> Result<(), NoMemory>
    ensures { Puts out.old result out.new (recall_args (recall_ops call.now file stateid)) }
{
    let handle = file_handle(u64::from(file.0));
    let sequence = cb_sequence_op(call.session, call.sequence);
    let recall = layout_recall_op(&handle, stateid);
    put_cb_compound("", MINOR_VERSION, 0, &[sequence, recall], out)
}

/// The record of a CB_COMPOUND with these arguments (RFC 5531, section 9). Nobody calls (AUTH_NONE).
fn compound_record(alloc: Global, xid: u32, program: u32, args: &[u8]) -> Result<Data, NoMemory>
    ensures { IfOk result (λ bytes. bytes ≡ call_bytes (callback_call xid program args.now)) }
{
    let nobody = Auth {
        flavor: AUTH_NONE,
        body: &[],
    };
    let call = Call {
        xid,
        program,
        version: CALLBACK_VERSION,
        procedure: CB_COMPOUND,
        cred: nobody,
        verf: nobody,
        args,
    };
    let mut out = Out::new(alloc);
    call.write(&mut out)?;
    Ok(Data::from_vec(out.into_bytes()))
}

/// The record that asks a client for the layout of a file (RFC 8881, section 20.3): a CB_COMPOUND under this number, to
/// the program and in the session that `call` names, of CB_SEQUENCE on slot 0 and CB_LAYOUTRECALL of all bytes for
/// reading and writing, under the layout's stateid.
pub fn recall_record(
    alloc: Global,
    xid: u32,
    call: &BackCall,
    file: FileId,
    stateid: Stateid,
) -> Result<Data, NoMemory>
    ensures { IfOk result (λ bytes. bytes ≡ recall_bytes xid call.now file stateid) }
{
    let mut out = Out::new(alloc);
    put_args(call, file, stateid, &mut out)?;
    let args = out.into_bytes();
    compound_record(alloc, xid, call.program, &args)
}
