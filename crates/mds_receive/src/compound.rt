//! The order of refusals of a COMPOUND (RFC 8881, sections 16.2.3 and 2.10.6.4).

ghost use Rattle.std.specs.Prelude.{◌≤◌, length, Ok};
ghost use Rattle.nfs4_compound.specs.Operations.{rest_of_stop};
ghost use Rattle.nfs4_compound.specs.Compounds.{compound_at};
ghost use Rattle.mds_receive.specs.MdsReceive.{counted, walked, with_head};
ghost use Rattle.mds_receive.specs.PlainIncoming.{ComesTo};

use crate::incoming::Incoming;
use crate::refusal::{answer, refuse_compound};
use ff_xdr::NoMemory;
use nfs4_compound::Compound;
use nfs4_types::Stat4;
use rpc_record::ReplyBody;
use std::alloc::Global;

/// The minor version (RFC 8881, section 2.7).
pub const MINOR_VERSION: u32 = 1;

/// The most operations of a compound, the `ca_maxoperations` of every session (RFC 8881, section 18.36.3).
pub const MAX_OPS: u32 = 16;

/// The form of the operations is gone over; bytes behind the last are no arguments.
fn walk<'a>(alloc: Global, xid: u32, compound: Compound<'a>) -> Result<Incoming<'a>, NoMemory>
    ensures { ComesTo result (walked xid compound.entry (rest_of_stop compound.entry.stop)) }
{
    if compound.rest().is_some() {
        return answer(alloc, xid, ReplyBody::GarbageArgs);
    }
    Ok(Incoming::Compound { xid, compound })
}

/// The minor version is judged first, then how many operations there are to be.
fn count_ops<'a>(alloc: Global, xid: u32, compound: Compound<'a>) -> Result<Incoming<'a>, NoMemory>
    requires { length compound.tag ≤ 1024 }
    ensures { ComesTo result (counted xid compound.entry) }
{
    if compound.minorversion() != MINOR_VERSION {
        return refuse_compound(alloc, xid, Stat4::MinorVersMismatch, compound.tag());
    }
    if compound.count() > MAX_OPS {
        return refuse_compound(alloc, xid, Stat4::TooManyOps, compound.tag());
    }
    walk(alloc, xid, compound)
}

/// The arguments of a COMPOUND.
pub fn read_compound<'a>(alloc: Global, xid: u32, args: &'a [u8]) -> Result<Incoming<'a>, NoMemory>
    ensures { ComesTo result (with_head xid (compound_at args.now)) }
{
    match Compound::read(args) {
        Ok(compound) => count_ops(alloc, xid, compound),
        Err(_) => answer(alloc, xid, ReplyBody::GarbageArgs),
    }
}
