//! How stable written data are.

ghost use Rattle.std.specs.Prelude.{◌≡◌, refl};
ghost use Rattle.nfs4_file_ops.specs.Stability.{stable_how4, stable_how4_number};

use ff_xdr::{Cursor, Message, NoMemory, Out, Wire, XdrError};

/// How stable a WRITE asks its data to be, or how stable they are (RFC 8881, section 18.32,
/// `stable_how4`).
#[derive(Clone, Copy, Debug, PartialEq, Eq)]
pub enum StableHow4 {
    Unstable,
    DataSync,
    FileSync,
}

impl StableHow4 {
    /// The number of the stability.
    pub fn number(self) -> u32
        ensures { result ≡ stable_how4_number self }
    {
        match self {
            StableHow4::Unstable => 0,
            StableHow4::DataSync => 1,
            StableHow4::FileSync => 2,
        }
    }
}

impl Message for StableHow4 {
    ghost form = { stable_how4 };

    ghost meaning = { stable_how4_number };

    ghost sound = { refl };
}

impl<'a> Wire<'a> for StableHow4 {
    fn read(cursor: &mut Cursor<'a>) -> Result<StableHow4, XdrError> {
        let mut fork = cursor.fork();
        let stable = match fork.number32()? {
            0 => StableHow4::Unstable,
            1 => StableHow4::DataSync,
            2 => StableHow4::FileSync,
            _ => return Err(XdrError::not_enum(cursor.place())),
        };
        *cursor = fork;
        Ok(stable)
    }

    fn put(&self, out: &mut Out) -> Result<(), NoMemory> {
        out.number32(self.number())?;
        Ok(())
    }

    fn fits(&self) -> bool {
        // the variant is looked at, so that the check knows that its number is one of the form's
        let _stable = *self;
        true
    }
}
