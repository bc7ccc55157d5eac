//! COMMIT: make what was written to a file stable (RFC 1813, section 3.3.21).

ghost use Rattle.std.specs.Prelude.{refl};
ghost use Rattle.nfs3_wire.specs.Commit.{commit_args, commit_args_value, commit_ok, commit_ok_value};

use crate::{Handle, Outcome, WccData};
use ff_xdr::{Cursor, Message, NoMemory, Out, Wire, XdrError};

/// The arguments, `COMMIT3args`.
#[derive(Clone, Copy, Debug, PartialEq, Eq)]
pub struct CommitArgs<'a> {
    /// The file's handle, at most 64 bytes.
    pub file: &'a [u8],
    /// From which byte on.
    pub offset: u64,
    /// How many bytes are to be stable; 0 is all up to the file's end.
    pub count: u32,
}

impl<'a> Message for CommitArgs<'a> {
    ghost form = { commit_args };

    ghost meaning = { commit_args_value };

    ghost sound = { refl };
}

impl<'a> Wire<'a> for CommitArgs<'a> {
    fn read(cursor: &mut Cursor<'a>) -> Result<CommitArgs<'a>, XdrError> {
        let (file, offset, count) = <(Handle<'a>, u64, u32)>::read(cursor)?;
        Ok(CommitArgs {
            file: file.bytes,
            offset,
            count,
        })
    }

    fn put(&self, out: &mut Out) -> Result<(), NoMemory> {
        (Handle { bytes: self.file }, self.offset, self.count).put(out)
    }

    fn fits(&self) -> bool {
        (Handle { bytes: self.file }, self.offset, self.count).fits()
    }
}

/// The result of a COMMIT that was done, `COMMIT3resok`.
#[derive(Clone, Copy, Debug, PartialEq, Eq)]
pub struct CommitOk {
    /// The attributes of the file before and after.
    pub wcc: WccData,
    /// The eight bytes of the write verifier, as one number.
    pub verifier: u64,
}

impl Message for CommitOk {
    ghost form = { commit_ok };

    ghost meaning = { commit_ok_value };

    ghost sound = { refl };
}

impl<'a> Wire<'a> for CommitOk {
    fn read(cursor: &mut Cursor<'a>) -> Result<CommitOk, XdrError> {
        let (wcc, verifier) = <(WccData, u64)>::read(cursor)?;
        Ok(CommitOk { wcc, verifier })
    }

    fn put(&self, out: &mut Out) -> Result<(), NoMemory> {
        (self.wcc, self.verifier).put(out)
    }

    fn fits(&self) -> bool {
        (self.wcc, self.verifier).fits()
    }
}

/// The result: of a refusal the attributes of the file before and after (`COMMIT3res`).
pub type CommitReply = Outcome<CommitOk, WccData>;
