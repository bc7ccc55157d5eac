//! Attributes (RFC 8881, section 3.3.7).

ghost use Rattle.std.specs.Prelude.{refl};
ghost use Rattle.nfs4_file_ops.specs.Fattr4.{fattr4, fattr4_value};

use ff_xdr::{Cursor, Message, NoMemory, Out, Wire, XdrError};
use nfs4_types::{Bitmap, OpaqueBody};

/// Attributes, `fattr4`.
#[derive(Clone, Copy, Debug)]
pub struct Fattr4<'a> {
    /// Which attributes there are.
    pub mask: Bitmap<'a>,
    /// Their values in the order of their numbers, each in its form.
    pub values: OpaqueBody<'a>,
}

impl<'a> Message for Fattr4<'a> {
    ghost form = { fattr4 };

    ghost meaning = { fattr4_value };

    ghost sound = { refl };
}

impl<'a> Wire<'a> for Fattr4<'a> {
    fn read(cursor: &mut Cursor<'a>) -> Result<Fattr4<'a>, XdrError> {
        let (mask, values) = Wire::read(cursor)?;
        Ok(Fattr4 { mask, values })
    }

    fn put(&self, out: &mut Out) -> Result<(), NoMemory> {
        (self.mask, self.values).put(out)
    }

    fn fits(&self) -> bool {
        (self.mask, self.values).fits()
    }
}
