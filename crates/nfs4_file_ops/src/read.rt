//! READ: read from a file (RFC 8881, section 18.22).

ghost use Rattle.std.specs.Prelude.{refl};
ghost use Rattle.nfs4_file_ops.specs.Read.{read4_args, read4_args_value, read4_ok, read4_ok_value};

use ff_xdr::{Cursor, Message, NoMemory, Out, Wire, XdrError};
use nfs4_types::{OpResult, OpaqueBody, Stateid};

/// The arguments, `READ4args`.
#[derive(Clone, Copy, Debug, PartialEq, Eq)]
pub struct Read4Args {
    pub stateid: Stateid,
    /// From which byte on.
    pub offset: u64,
    /// How many bytes at the most.
    pub count: u32,
}

impl Message for Read4Args {
    ghost form = { read4_args };

    ghost meaning = { read4_args_value };

    ghost sound = { refl };
}

impl<'a> Wire<'a> for Read4Args {
    fn read(cursor: &mut Cursor<'a>) -> Result<Read4Args, XdrError> {
        let (stateid, offset, count) = Wire::read(cursor)?;
        Ok(Read4Args {
            stateid,
            offset,
            count,
        })
    }

    fn put(&self, out: &mut Out) -> Result<(), NoMemory> {
        (self.stateid, self.offset, self.count).put(out)
    }

    fn fits(&self) -> bool {
        (self.stateid, self.offset, self.count).fits()
    }
}

/// The result of a READ that was done, `READ4resok`.
#[derive(Clone, Copy, Debug, PartialEq, Eq)]
pub struct Read4Ok<'a> {
    /// The last of the bytes is the file's last.
    pub eof: bool,
    pub bytes: OpaqueBody<'a>,
}

impl<'a> Message for Read4Ok<'a> {
    ghost form = { read4_ok };

    ghost meaning = { read4_ok_value };

    ghost sound = { refl };
}

impl<'a> Wire<'a> for Read4Ok<'a> {
    fn read(cursor: &mut Cursor<'a>) -> Result<Read4Ok<'a>, XdrError> {
        let (eof, bytes) = Wire::read(cursor)?;
        Ok(Read4Ok { eof, bytes })
    }

    fn put(&self, out: &mut Out) -> Result<(), NoMemory> {
        (self.eof, self.bytes).put(out)
    }

    fn fits(&self) -> bool {
        (self.eof, self.bytes).fits()
    }
}

/// The result, `READ4res`.
pub type Read4Res<'a> = OpResult<Read4Ok<'a>>;
