//! READ: read from a file (RFC 1813, section 3.3.6).

ghost use Rattle.std.specs.Prelude.{refl};
ghost use Rattle.nfs3_wire.specs.Read.{read_args, read_args_value, read_ok, read_ok_value};

use crate::{Bytes, Fattr3, Handle, Outcome};
use ff_xdr::{Cursor, Message, NoMemory, Out, Wire, XdrError};

/// The arguments, `READ3args`.
#[derive(Clone, Copy, Debug, PartialEq, Eq)]
pub struct ReadArgs<'a> {
    /// The file's handle, at most 64 bytes.
    pub file: &'a [u8],
    /// From which byte on.
    pub offset: u64,
    /// How many bytes at the most.
    pub count: u32,
}

impl<'a> Message for ReadArgs<'a> {
    ghost form = { read_args };

    ghost meaning = { read_args_value };

    ghost sound = { refl };
}

impl<'a> Wire<'a> for ReadArgs<'a> {
    fn read(cursor: &mut Cursor<'a>) -> Result<ReadArgs<'a>, XdrError> {
        let (file, offset, count) = <(Handle<'a>, u64, u32)>::read(cursor)?;
        Ok(ReadArgs {
            file: file.bytes,
            offset,
            count,
        })
    }

    fn put(&self, out: &mut Out) -> Result<(), NoMemory> {
        (Handle { bytes: self.file }, self.offset, self.count).put(out)
    }

    fn fits(&self) -> bool {
        (Handle { bytes: self.file }, self.offset, self.count).fits()
    }
}

/// The result of a READ that was done, `READ3resok`.
#[derive(Clone, Copy, Debug, PartialEq, Eq)]
pub struct ReadOk<'a> {
    pub attributes: Option<Fattr3>,
    /// How many bytes were read.
    pub count: u32,
    /// The last of them is the file's last byte.
    pub eof: bool,
    /// The bytes, at most 1,048,576.
    pub bytes: &'a [u8],
}

impl<'a> Message for ReadOk<'a> {
    ghost form = { read_ok };

    ghost meaning = { read_ok_value };

    ghost sound = { refl };
}

impl<'a> Wire<'a> for ReadOk<'a> {
    fn read(cursor: &mut Cursor<'a>) -> Result<ReadOk<'a>, XdrError> {
        let (attributes, count, (eof, bytes)) = <(Option<Fattr3>, u32, (bool, Bytes<'a>))>::read(
            cursor,
        )?;
        Ok(ReadOk {
            attributes,
            count,
            eof,
            bytes: bytes.bytes,
        })
    }

    fn put(&self, out: &mut Out) -> Result<(), NoMemory> {
        (
            self.attributes,
            self.count,
            (self.eof, Bytes { bytes: self.bytes }),
        )
            .put(out)
    }

    fn fits(&self) -> bool {
        (
            self.attributes,
            self.count,
            (self.eof, Bytes { bytes: self.bytes }),
        )
            .fits()
    }
}

/// The result: of a refusal the attributes of the file (`READ3res`).
pub type ReadReply<'a> = Outcome<ReadOk<'a>, Option<Fattr3>>;
