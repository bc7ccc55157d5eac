//! The order of refusals by the header of a call (RFC 5531, section 9).

ghost use Rattle.std.specs.Prelude.{◌≡◌};
ghost use Rattle.rpc_record.specs.Calls.{rpc_call, call_at};
ghost use Rattle.rpc_record.specs.Replies.{reply_at};
ghost use Rattle.mds_receive.specs.MdsReceive.{asked, asks_null, incoming_of, dispatched, of_reply};
ghost use Rattle.mds_receive.specs.PlainIncoming.{ComesTo, plain_incoming};

use crate::compound::read_compound;
use crate::incoming::Incoming;
use crate::refusal::answer;
use ff_xdr::NoMemory;
use rpc_record::{Call, CallFault, NFS_PROGRAM, RPC_VERSION, Reply, ReplyBody};
use std::alloc::Global;

/// The program's version (RFC 8881, section 16).
pub const NFS_VERSION: u32 = 4;

/// The procedure NULL (RFC 8881, section 16.1).
pub const NULL: u32 = 0;

/// The procedure COMPOUND (RFC 8881, section 16.2).
pub const COMPOUND: u32 = 1;

/// NULL has no arguments and no results.
fn read_null<'a>(alloc: Global, xid: u32, args: &[u8]) -> Result<Incoming<'a>, NoMemory>
    ensures { ComesTo result (asks_null xid args.now) }
{
    if args.is_empty() {
        return answer(alloc, xid, ReplyBody::Success(&[]));
    }
    answer(alloc, xid, ReplyBody::GarbageArgs)
}

/// A call of this program in this version.
fn read_procedure<'a>(alloc: Global, call: &Call<'a>) -> Result<Incoming<'a>, NoMemory>
    ensures { ComesTo result (asked (rpc_call call.now)) }
{
    match call.procedure {
        NULL => read_null(alloc, call.xid, call.args),
        COMPOUND => read_compound(alloc, call.xid, call.args),
        _ => answer(alloc, call.xid, ReplyBody::ProcUnavail),
    }
}

/// A call. Its credential is not looked at.
fn dispatch<'a>(alloc: Global, call: &Call<'a>) -> Result<Incoming<'a>, NoMemory>
    ensures { ComesTo result (dispatched (rpc_call call.now)) }
{
    if call.program != NFS_PROGRAM {
        return answer(alloc, call.xid, ReplyBody::ProgUnavail);
    }
    if call.version != NFS_VERSION {
        let body = ReplyBody::ProgMismatch {
            low: NFS_VERSION,
            high: NFS_VERSION,
        };
        return answer(alloc, call.xid, body);
    }
    read_procedure(alloc, call)
}

/// A record that is no call.
fn read_reply<'a>(message: &'a [u8]) -> Incoming<'a>
    ensures { plain_incoming result ≡ of_reply (reply_at message.now) }
{
    match Reply::read(message) {
        Ok(reply) => Incoming::Reply(reply),
        Err(_) => Incoming::Nothing,
    }
}

/// What a record is. Memory is taken for a call that is answered at once, and for nothing else.
pub fn receive_record<'a>(alloc: Global, message: &'a [u8]) -> Result<Incoming<'a>, NoMemory>
    ensures { ComesTo result (incoming_of message.now) }
{
    match Call::read(message) {
        Ok(call) => dispatch(alloc, &call),
        Err(CallFault::NotACall) => Ok(read_reply(message)),
        Err(CallFault::RpcVersion { xid }) => {
            let body = ReplyBody::RpcMismatch {
                low: RPC_VERSION,
                high: RPC_VERSION,
            };
            answer(alloc, xid, body)
        }
        Err(CallFault::Bad { xid, .. }) => answer(alloc, xid, ReplyBody::GarbageArgs),
    }
}
