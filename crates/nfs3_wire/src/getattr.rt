//! GETATTR: get the attributes of an object (RFC 1813, section 3.3.1).

ghost use Rattle.std.specs.Prelude.{refl};
ghost use Rattle.nfs3_wire.specs.Getattr.{getattr_args, getattr_args_value};

use crate::{Fattr3, Handle, Outcome};
use ff_xdr::{Cursor, Message, NoMemory, Out, Wire, XdrError};

/// The arguments, `GETATTR3args`.
#[derive(Clone, Copy, Debug, PartialEq, Eq)]
pub struct GetAttrArgs<'a> {
    /// The object's handle, at most 64 bytes.
    pub file: &'a [u8],
}

impl<'a> Message for GetAttrArgs<'a> {
    ghost form = { getattr_args };

    ghost meaning = { getattr_args_value };

    ghost sound = { refl };
}

impl<'a> Wire<'a> for GetAttrArgs<'a> {
    fn read(cursor: &mut Cursor<'a>) -> Result<GetAttrArgs<'a>, XdrError> {
        let parts = <Handle<'a>>::read(cursor)?;
        Ok(GetAttrArgs { file: parts.bytes })
    }

    fn put(&self, out: &mut Out) -> Result<(), NoMemory> {
        Handle { bytes: self.file }.put(out)
    }

    fn fits(&self) -> bool {
        Handle { bytes: self.file }.fits()
    }
}

/// The result: the attributes of the object, or a status and nothing more (`GETATTR3res`).
pub type GetAttrReply = Outcome<Fattr3, ()>;
