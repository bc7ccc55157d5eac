//! Replies that are a success, as records.

ghost use Rattle.std.specs.Prelude.{◌≡◌, IfOk};
ghost use Rattle.rpc_record.specs.Replies.{reply_bytes};
ghost use Rattle.compound_reply.specs.Replied.{success_reply};

use ff_xdr::{NoMemory, Out};
use rpc_record::{AUTH_NONE, Auth, Reply, ReplyBody};
use std::alloc::Global;

/// The record of a reply that accepts the call under this number, with a verifier that says nothing, and has these bytes as
/// the results of its success (RFC 5531, section 9). Takes memory.
pub fn success_record(alloc: Global, xid: u32, results: &[u8]) -> Result<Vec<u8>, NoMemory>
    ensures { IfOk result (λ bytes. bytes.items ≡ reply_bytes (success_reply xid results.now)) }
{
    let verf = Auth {
        flavor: AUTH_NONE,
        body: &[],
    };
    let body = ReplyBody::Success(results);
    let mut out = Out::new(alloc);
    Reply { xid, verf, body }.write(&mut out)?;
    Ok(out.into_bytes())
}
