//! A READ to a data server (RFC 1813, section 3.3.6).

ghost use Rattle.std.specs.Prelude.{◌≡◌};
ghost use Rattle.ff_xdr.specs.Reading.{reading, whole};
ghost use Rattle.rpc_record.specs.Calls.{rpc_call};
ghost use Rattle.nfs3_wire.specs.Read.{read_args};
ghost use Rattle.ff_laws.specs.ReadCalls.{nfs3_read, nfs3_read_of, server_read_of};

use crate::ReadCall;
use ff_xdr::Wire;
use nfs3_wire::ReadArgs;
use nfs4_types::file_number;
use rpc_record::{Call, NFS_PROGRAM};

/// The arguments of a READ, all of them in their form.
fn read_with(xid: u32, args: &[u8]) -> Option<ReadCall>
    ensures { result ≡ nfs3_read xid (whole args.now (reading read_args args.now 0)) }
{
    match ReadArgs::from_bytes(args) {
        Ok(read) => {
            let handle = file_number(read.file)?;
            Some(ReadCall {
                xid,
                handle,
                offset: read.offset,
                count: read.count,
            })
        }
        Err(_) => None,
    }
}

/// A call whose program, version and procedure are those of READ.
fn nfs3_read(call: &Call<'_>) -> Option<ReadCall>
    ensures { result ≡ nfs3_read_of (rpc_call call.now) }
{
    match (call.program, call.version, call.procedure) {
        (NFS_PROGRAM, 3, 6) => read_with(call.xid, call.args),
        _ => None,
    }
}

/// What a record asks of a data server's file: `None` where it is no READ of NFSv3 (program 100003, version 3, procedure 6)
/// in its form, or names the file by a handle that has not eight bytes. Takes no memory.
pub fn server_read(message: &[u8]) -> Option<ReadCall>
    ensures { result ≡ server_read_of message.now }
{
    match Call::read(message) {
        Ok(call) => nfs3_read(&call),
        Err(_) => None,
    }
}
