//! Who made a client or a server (RFC 8881, section 3.3.21).

ghost use Rattle.std.specs.Prelude.{refl};
ghost use Rattle.nfs4_session_ops.specs.ImplId.{impl_id4, impl_id4_value};

use ff_xdr::{Cursor, Message, NoMemory, Out, Wire, XdrError};
use nfs4_types::{FreeText, Time4};

/// Who made a client or a server, `nfs_impl_id4`.
#[derive(Clone, Copy, Debug, PartialEq, Eq)]
pub struct ImplId<'a> {
    /// The maker's domain.
    pub domain: FreeText<'a>,
    /// The product.
    pub name: FreeText<'a>,
    /// When it was built.
    pub date: Time4,
}

impl<'a> Message for ImplId<'a> {
    ghost form = { impl_id4 };

    ghost meaning = { impl_id4_value };

    ghost sound = { refl };
}

impl<'a> Wire<'a> for ImplId<'a> {
    fn read(cursor: &mut Cursor<'a>) -> Result<ImplId<'a>, XdrError> {
        let (domain, name, date) = Wire::read(cursor)?;
        Ok(ImplId { domain, name, date })
    }

    fn put(&self, out: &mut Out) -> Result<(), NoMemory> {
        (self.domain, self.name, self.date).put(out)
    }

    fn fits(&self) -> bool {
        (self.domain, self.name, self.date).fits()
    }
}
