//! COMMIT: commit written data (RFC 8881, section 18.3).

ghost use Rattle.std.specs.Prelude.{refl};
ghost use Rattle.nfs4_file_ops.specs.Commit.{commit4_args, commit4_args_value};

use ff_xdr::{Cursor, Message, NoMemory, Out, Wire, XdrError};
use nfs4_types::OpResult;

/// The arguments, `COMMIT4args`.
#[derive(Clone, Copy, Debug, PartialEq, Eq)]
pub struct Commit4Args {
    /// From which byte on.
    pub offset: u64,
    /// How many bytes; 0 for all behind.
    pub count: u32,
}

impl Message for Commit4Args {
    ghost form = { commit4_args };

    ghost meaning = { commit4_args_value };

    ghost sound = { refl };
}

impl<'a> Wire<'a> for Commit4Args {
    fn read(cursor: &mut Cursor<'a>) -> Result<Commit4Args, XdrError> {
        let (offset, count) = Wire::read(cursor)?;
        Ok(Commit4Args { offset, count })
    }

    fn put(&self, out: &mut Out) -> Result<(), NoMemory> {
        (self.offset, self.count).put(out)
    }

    fn fits(&self) -> bool {
        (self.offset, self.count).fits()
    }
}

/// The result, `COMMIT4res`: the eight bytes of the write verifier, as one number.
pub type Commit4Res = OpResult<u64>;
