//! CLOSE: close a file (RFC 8881, section 18.2).

ghost use Rattle.std.specs.Prelude.{refl};
ghost use Rattle.nfs4_file_ops.specs.Close.{close4_args, close4_args_value};

use ff_xdr::{Cursor, Message, NoMemory, Out, Wire, XdrError};
use nfs4_types::{OpResult, Stateid};

/// The arguments, `CLOSE4args`.
#[derive(Clone, Copy, Debug, PartialEq, Eq)]
pub struct CloseArgs {
    /// Not used in NFSv4.1.
    pub seqid: u32,
    /// Of the open.
    pub stateid: Stateid,
}

impl Message for CloseArgs {
    ghost form = { close4_args };

    ghost meaning = { close4_args_value };

    ghost sound = { refl };
}

impl<'a> Wire<'a> for CloseArgs {
    fn read(cursor: &mut Cursor<'a>) -> Result<CloseArgs, XdrError> {
        let (seqid, stateid) = Wire::read(cursor)?;
        Ok(CloseArgs { seqid, stateid })
    }

    fn put(&self, out: &mut Out) -> Result<(), NoMemory> {
        (self.seqid, self.stateid).put(out)
    }

    fn fits(&self) -> bool {
        (self.seqid, self.stateid).fits()
    }
}

/// The result, `CLOSE4res`: the stateid of the open that is no more.
pub type CloseRes = OpResult<Stateid>;
