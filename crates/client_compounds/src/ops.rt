//! The operation that stands in front of each request on a slot, and the arguments as a whole.

ghost use Rattle.std.specs.Prelude.{◌≡◌, ◌<◌, ◌^◌, length, map};
ghost use Rattle.std.specs.List.{AllByRecursion};
ghost use Rattle.ff_xdr.specs.Form.{Fits};
ghost use Rattle.ff_xdr.specs.Calls.{Puts};
ghost use Rattle.nfs4_compound.specs.Args.{argop4, op_value};
ghost use Rattle.client_compounds.specs.MdsArguments.{compound_args, sequence_op};

use ff_xdr::{NoMemory, Out};
use nfs4_compound::{Op, put_compound};
use nfs4_types::{Sequence, SessionId};

/// Where a request stands: on slot 0 of a session.
#[derive(Clone, Copy)]
pub struct Start {
    pub session: SessionId,
    pub sequence: u32,
}

/// SEQUENCE on slot 0 (RFC 8881, section 18.46). The reply is to be kept or not.
pub fn sequence_op<'a>(start: Start, kept: bool) -> Op<'a>
    ensures value { op_value result ≡ sequence_op start.session start.sequence kept }
    ensures fits { Fits argop4 (op_value result) }
{
    Op::Sequence(Sequence {
        session: start.session,
        sequence: start.sequence,
        slot: 0,
        highest: 0,
        cachethis: kept,
    })
}

/// Appends the arguments of a compound of these operations, with an empty tag and minor version 1 (RFC
/// 8881, section 16.2), or nothing.
#[tactic(auto, unfolding(crate::specs::MdsArguments::compound_args))]
pub fn put_ops<'a>(ops: &'a [Op<'a>], out: &mut Out) -> Result<(), NoMemory>
    requires count { length ops.now < 2 ^ 32 }
    requires fits { AllByRecursion (Fits argop4) (map op_value ops.now) }
    ensures { Puts out.old result out.new (compound_args (map op_value ops.now)) }
{
    put_compound("", 1, ops, out)
}
