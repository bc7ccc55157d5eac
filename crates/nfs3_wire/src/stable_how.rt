//! How stable written data are.

ghost use Rattle.std.specs.Prelude.{◌≡◌, refl};
ghost use Rattle.nfs3_wire.specs.Stability.{stable_how, stable_how_number};

use ff_xdr::{Cursor, Message, NoMemory, Out, Wire, XdrError};

/// How stable a WRITE asks its data to be, or how stable they are (RFC 1813, section 3.3.7,
/// `stable_how`).
#[derive(Clone, Copy, Debug, PartialEq, Eq)]
pub enum StableHow {
    Unstable,
    DataSync,
    FileSync,
}

impl StableHow {
    /// The number of the stability.
    pub fn number(self) -> u32
        ensures { result ≡ stable_how_number self }
    {
        match self {
            StableHow::Unstable => 0,
            StableHow::DataSync => 1,
            StableHow::FileSync => 2,
        }
    }
}

impl Message for StableHow {
    ghost form = { stable_how };

    ghost meaning = { stable_how_number };

    ghost sound = { refl };
}

impl<'a> Wire<'a> for StableHow {
    fn read(cursor: &mut Cursor<'a>) -> Result<StableHow, XdrError> {
        let mut fork = cursor.fork();
        let stable = match fork.number32()? {
            0 => StableHow::Unstable,
            1 => StableHow::DataSync,
            2 => StableHow::FileSync,
            _ => return Err(XdrError::not_enum(cursor.place())),
        };
        *cursor = fork;
        Ok(stable)
    }

    fn put(&self, out: &mut Out) -> Result<(), NoMemory> {
        self.number().put(out)
    }

    fn fits(&self) -> bool {
        // the variant is looked at, so that the check knows that its number is one of the form's
        let _stable = *self;
        true
    }
}
