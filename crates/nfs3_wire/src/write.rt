//! WRITE: write to a file (RFC 1813, section 3.3.7).

ghost use Rattle.std.specs.Prelude.{refl};
ghost use Rattle.nfs3_wire.specs.Write.{write_args, write_args_value, write_ok, write_ok_value};

use crate::{Bytes, Handle, Outcome, StableHow, WccData};
use ff_xdr::{Cursor, Message, NoMemory, Out, Wire, XdrError};

/// The arguments, `WRITE3args`.
#[derive(Clone, Copy, Debug, PartialEq, Eq)]
pub struct WriteArgs<'a> {
    /// The file's handle, at most 64 bytes.
    pub file: &'a [u8],
    /// From which byte on.
    pub offset: u64,
    /// How many bytes are to be written.
    pub count: u32,
    /// How stable they are to be before the answer.
    pub stable: StableHow,
    /// The bytes, at most 1,048,576.
    pub bytes: &'a [u8],
}

impl<'a> Message for WriteArgs<'a> {
    ghost form = { write_args };

    ghost meaning = { write_args_value };

    ghost sound = { refl };
}

impl<'a> Wire<'a> for WriteArgs<'a> {
    fn read(cursor: &mut Cursor<'a>) -> Result<WriteArgs<'a>, XdrError> {
        let (file, offset, (count, stable, bytes)) = <(
            Handle<'a>,
            u64,
            (u32, StableHow, Bytes<'a>),
        )>::read(cursor)?;
        Ok(WriteArgs {
            file: file.bytes,
            offset,
            count,
            stable,
            bytes: bytes.bytes,
        })
    }

    fn put(&self, out: &mut Out) -> Result<(), NoMemory> {
        (
            Handle { bytes: self.file },
            self.offset,
            (self.count, self.stable, Bytes { bytes: self.bytes }),
        )
            .put(out)
    }

    fn fits(&self) -> bool {
        (
            Handle { bytes: self.file },
            self.offset,
            (self.count, self.stable, Bytes { bytes: self.bytes }),
        )
            .fits()
    }
}

/// The result of a WRITE that was done, `WRITE3resok`.
#[derive(Clone, Copy, Debug, PartialEq, Eq)]
pub struct WriteOk {
    pub wcc: WccData,
    /// How many bytes were written.
    pub count: u32,
    /// How stable they are.
    pub committed: StableHow,
    /// The eight bytes of the write verifier, as one number.
    pub verifier: u64,
}

impl Message for WriteOk {
    ghost form = { write_ok };

    ghost meaning = { write_ok_value };

    ghost sound = { refl };
}

impl<'a> Wire<'a> for WriteOk {
    fn read(cursor: &mut Cursor<'a>) -> Result<WriteOk, XdrError> {
        let (wcc, count, (committed, verifier)) = <(WccData, u32, (StableHow, u64))>::read(cursor)?;
        Ok(WriteOk {
            wcc,
            count,
            committed,
            verifier,
        })
    }

    fn put(&self, out: &mut Out) -> Result<(), NoMemory> {
        (self.wcc, self.count, (self.committed, self.verifier)).put(out)
    }

    fn fits(&self) -> bool {
        (self.wcc, self.count, (self.committed, self.verifier)).fits()
    }
}

/// The result: of a refusal the attributes of the file before and after (`WRITE3res`).
pub type WriteReply = Outcome<WriteOk, WccData>;
