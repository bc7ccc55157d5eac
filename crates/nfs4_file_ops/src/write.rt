//! WRITE: write to a file (RFC 8881, section 18.32).

ghost use Rattle.std.specs.Prelude.{refl};
ghost use Rattle.nfs4_file_ops.specs.Write.{write4_args, write4_args_value, write4_ok, write4_ok_value};

use crate::StableHow4;
use ff_xdr::{Cursor, Message, NoMemory, Out, Wire, XdrError};
use nfs4_types::{OpResult, OpaqueBody, Stateid};

/// The arguments, `WRITE4args`.
#[derive(Clone, Copy, Debug, PartialEq, Eq)]
pub struct Write4Args<'a> {
    pub stateid: Stateid,
    /// From which byte on.
    pub offset: u64,
    /// How stable they are to be before the answer.
    pub stable: StableHow4,
    pub bytes: OpaqueBody<'a>,
}

impl<'a> Message for Write4Args<'a> {
    ghost form = { write4_args };

    ghost meaning = { write4_args_value };

    ghost sound = { refl };
}

impl<'a> Wire<'a> for Write4Args<'a> {
    fn read(cursor: &mut Cursor<'a>) -> Result<Write4Args<'a>, XdrError> {
        let (stateid, offset, (stable, bytes)) = Wire::read(cursor)?;
        Ok(Write4Args {
            stateid,
            offset,
            stable,
            bytes,
        })
    }

    fn put(&self, out: &mut Out) -> Result<(), NoMemory> {
        (self.stateid, self.offset, (self.stable, self.bytes)).put(out)
    }

    fn fits(&self) -> bool {
        (self.stateid, self.offset, (self.stable, self.bytes)).fits()
    }
}

/// The result of a WRITE that was done, `WRITE4resok`.
#[derive(Clone, Copy, Debug, PartialEq, Eq)]
pub struct Write4Ok {
    /// How many bytes were written.
    pub count: u32,
    /// How stable they are.
    pub committed: StableHow4,
    /// The eight bytes of the write verifier, as one number.
    pub verifier: u64,
}

impl Message for Write4Ok {
    ghost form = { write4_ok };

    ghost meaning = { write4_ok_value };

    ghost sound = { refl };
}

impl<'a> Wire<'a> for Write4Ok {
    fn read(cursor: &mut Cursor<'a>) -> Result<Write4Ok, XdrError> {
        let (count, committed, verifier) = Wire::read(cursor)?;
        Ok(Write4Ok {
            count,
            committed,
            verifier,
        })
    }

    fn put(&self, out: &mut Out) -> Result<(), NoMemory> {
        (self.count, self.committed, self.verifier).put(out)
    }

    fn fits(&self) -> bool {
        (self.count, self.committed, self.verifier).fits()
    }
}

/// The result, `WRITE4res`.
pub type Write4Res = OpResult<Write4Ok>;
