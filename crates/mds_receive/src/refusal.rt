//! The records that go back at once.

ghost use Rattle.std.specs.Prelude.{◌≡◌, ◌≤◌, [], length, IfOk};
ghost use Rattle.ff_xdr.specs.Form.{spelling};
ghost use Rattle.rpc_record.specs.Replies.{reply_stat, reply_results, reply_bytes, success};
ghost use Rattle.nfs4_types.specs.Status.{stat4_number};
ghost use Rattle.nfs4_compound.specs.Compounds.{compound4_res};
ghost use Rattle.mds_receive.specs.MdsReceive.{answers, bare_reply, refuses_compound};
ghost use Rattle.mds_receive.specs.PlainIncoming.{ComesTo};

use crate::incoming::Incoming;
use ff_xdr::{Data, NoMemory, Out};
use nfs4_compound::put_results;
use nfs4_types::Stat4;
use rpc_record::{AUTH_NONE, Auth, Reply, ReplyBody};
use std::alloc::Global;

/// The record of a reply without a verifier.
fn reply_record(alloc: Global, xid: u32, body: ReplyBody<'_>) -> Result<Data, NoMemory>
    ensures { IfOk result (λ bytes. bytes ≡ reply_bytes (bare_reply xid (reply_stat body.entry) (reply_results body.entry))) }
{
    let verf = Auth {
        flavor: AUTH_NONE,
        body: &[],
    };
    let mut out = Out::new(alloc);
    Reply { xid, verf, body }.write(&mut out)?;
    Ok(Data::from_vec(out.into_bytes()))
}

/// The call is answered so.
pub fn answer<'a>(alloc: Global, xid: u32, body: ReplyBody<'_>) -> Result<Incoming<'a>, NoMemory>
    ensures { ComesTo result (answers xid (reply_stat body.entry) (reply_results body.entry)) }
{
    let bytes = reply_record(alloc, xid, body)?;
    Ok(Incoming::Answered(bytes))
}

/// The compound is refused by this status, and has no results (RFC 8881, section 16.2.3).
pub fn refuse_compound<'a>(
    alloc: Global,
    xid: u32,
    status: Stat4,
    tag: &str,
) -> Result<Incoming<'a>, NoMemory>
    requires { length tag.now ≤ 1024 }
    ensures { ComesTo result (refuses_compound xid status tag.now) }
{
    let mut out = Out::new(alloc);
    put_results(status, tag, &[], &mut out)?;
    let bytes = out.into_bytes();
    answer(alloc, xid, ReplyBody::Success(&bytes))
}
