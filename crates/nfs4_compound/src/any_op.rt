//! All operations that are read (RFC 8881, section 18).

ghost use Rattle.std.specs.Prelude.{refl};
ghost use Rattle.nfs4_compound.specs.AllOps.{nfs_argop4, any_op_value};

use crate::{Op, is_built_op};
use ff_xdr::{Cursor, Message, NoMemory, Out, Wire, XdrError};
use nfs4_unserved_ops::UnservedOp;

/// An operation of a compound, `nfs_argop4` (RFC 8881, section 16.2.3): one that is carried out, or one of which the form
/// alone is there. Any other number is refused as `NotEnum`.
#[derive(Clone, Copy, Debug)]
pub enum AnyOp<'a> {
    Served(Op<'a>),
    Unserved(UnservedOp<'a>),
}

impl<'a> Message for AnyOp<'a> {
    ghost form = { nfs_argop4 };

    ghost meaning = { any_op_value };

    ghost sound = { refl };
}

impl<'a> Wire<'a> for AnyOp<'a> {
    fn read(cursor: &mut Cursor<'a>) -> Result<AnyOp<'a>, XdrError> {
        let number = cursor.fork().number32()?;
        if is_built_op(number) {
            return Ok(AnyOp::Served(Op::read(cursor)?));
        }
        Ok(AnyOp::Unserved(UnservedOp::read(cursor)?))
    }

    fn put(&self, out: &mut Out) -> Result<(), NoMemory> {
        match self {
            AnyOp::Served(op) => op.put(out),
            AnyOp::Unserved(op) => op.put(out),
        }
    }

    fn fits(&self) -> bool {
        match self {
            AnyOp::Served(op) => op.fits(),
            AnyOp::Unserved(op) => op.fits(),
        }
    }
}
