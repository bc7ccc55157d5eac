//! SECINFO_NO_NAME: how a file may be reached safely (RFC 8881, section 18.45).

ghost use Rattle.std.specs.Prelude.{◌≡◌, refl};
ghost use Rattle.nfs4_unserved_ops.specs.SecInfoNoName.{secinfo_style4, secinfo_style4_number, flavor4};

use ff_xdr::{Array, Cursor, Message, NoMemory, Out, Wire, XdrError};
use nfs4_types::OpResult;

/// The arguments, `SECINFO_NO_NAME4args`: of which file it is asked.
#[derive(Clone, Copy, Debug)]
pub enum SecInfoStyle {
    /// The current one.
    CurrentFh,
    /// The directory above it.
    Parent,
}

impl SecInfoStyle {
    /// The number of the style.
    pub fn number(self) -> u32
        ensures { result ≡ secinfo_style4_number self }
    {
        match self {
            SecInfoStyle::CurrentFh => 0,
            SecInfoStyle::Parent => 1,
        }
    }
}

impl Message for SecInfoStyle {
    ghost form = { secinfo_style4 };

    ghost meaning = { secinfo_style4_number };

    ghost sound = { refl };
}

impl<'a> Wire<'a> for SecInfoStyle {
    fn read(cursor: &mut Cursor<'a>) -> Result<SecInfoStyle, XdrError> {
        let mut fork = cursor.fork();
        let style = match fork.number32()? {
            0 => SecInfoStyle::CurrentFh,
            1 => SecInfoStyle::Parent,
            _ => return Err(XdrError::not_enum(cursor.place())),
        };
        *cursor = fork;
        Ok(style)
    }

    fn put(&self, out: &mut Out) -> Result<(), NoMemory> {
        out.number32(self.number())?;
        Ok(())
    }

    fn fits(&self) -> bool {
        // the variant is looked at, so that the check knows that its number is one of the form's
        let _style = *self;
        true
    }
}

/// A flavor by its number, `secinfo4`. That of GSS, 6, has more, and is not built.
#[derive(Clone, Copy, Debug)]
pub struct Flavor4 {
    pub number: u32,
}

impl Message for Flavor4 {
    ghost form = { flavor4 };

    ghost meaning = { λ flavor. flavor.number };

    ghost sound = { refl };
}

impl<'a> Wire<'a> for Flavor4 {
    fn read(cursor: &mut Cursor<'a>) -> Result<Flavor4, XdrError> {
        let mut fork = cursor.fork();
        let number = fork.number32()?;
        if number == 6 {
            return Err(XdrError::not_enum(cursor.place()));
        }
        *cursor = fork;
        Ok(Flavor4 { number })
    }

    fn put(&self, out: &mut Out) -> Result<(), NoMemory> {
        out.number32(self.number)?;
        Ok(())
    }

    fn fits(&self) -> bool {
        self.number != 6
    }
}

/// The result, `SECINFO_NO_NAME4res`: the flavors that may be used, the one that is wanted most first.
pub type SecInfoNoNameRes<'a> = OpResult<Array<'a, Flavor4, { u32::MAX }>>;
