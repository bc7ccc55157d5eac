//! ACCESS: what may be done with a file (RFC 8881, section 18.1).

ghost use Rattle.std.specs.Prelude.{refl};
ghost use Rattle.nfs4_unserved_ops.specs.Access.{access4_ok, access4_ok_value};

use ff_xdr::{Cursor, Message, NoMemory, Out, Wire, XdrError};
use nfs4_types::OpResult;

/// The arguments, `ACCESS4args`: the rights that are asked for, a bit each.
pub type AccessArgs = u32;

/// The result of an ACCESS that was done, `ACCESS4resok`.
#[derive(Clone, Copy, Debug)]
pub struct AccessOk {
    /// The rights of which the server can tell.
    pub supported: u32,
    /// Those of them that the caller has.
    pub access: u32,
}

impl Message for AccessOk {
    ghost form = { access4_ok };

    ghost meaning = { access4_ok_value };

    ghost sound = { refl };
}

impl<'a> Wire<'a> for AccessOk {
    fn read(cursor: &mut Cursor<'a>) -> Result<AccessOk, XdrError> {
        let (supported, access) = Wire::read(cursor)?;
        Ok(AccessOk { supported, access })
    }

    fn put(&self, out: &mut Out) -> Result<(), NoMemory> {
        (self.supported, self.access).put(out)
    }

    fn fits(&self) -> bool {
        (self.supported, self.access).fits()
    }
}

/// The result, `ACCESS4res`.
pub type AccessRes = OpResult<AccessOk>;
