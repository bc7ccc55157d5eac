//! READDIR: the entries of a directory (RFC 8881, section 18.23). Of its result that of one that was done is not built.

ghost use Rattle.std.specs.Prelude.{refl};
ghost use Rattle.nfs4_unserved_ops.specs.ReadDir.{readdir4_args, readdir4_args_value};

use ff_xdr::{Cursor, Message, NoMemory, Out, Wire, XdrError};
use nfs4_types::Bitmap;

/// The arguments, `READDIR4args`.
#[derive(Clone, Copy, Debug)]
pub struct ReadDirArgs<'a> {
    /// Behind which entry to begin; 0 for the first.
    pub cookie: u64,
    /// From the answer that gave the cookie.
    pub verifier: [u8; 8],
    /// At most so many bytes of names and cookies are wanted.
    pub dircount: u32,
    /// At most so many bytes of the result.
    pub maxcount: u32,
    /// Which attributes are wanted of each entry.
    pub attributes: Bitmap<'a>,
}

impl<'a> Message for ReadDirArgs<'a> {
    ghost form = { readdir4_args };

    ghost meaning = { readdir4_args_value };

    ghost sound = { refl };
}

impl<'a> Wire<'a> for ReadDirArgs<'a> {
    fn read(cursor: &mut Cursor<'a>) -> Result<ReadDirArgs<'a>, XdrError> {
        let (cookie, verifier, (dircount, maxcount, attributes)) = Wire::read(cursor)?;
        Ok(ReadDirArgs {
            cookie,
            verifier,
            dircount,
            maxcount,
            attributes,
        })
    }

    fn put(&self, out: &mut Out) -> Result<(), NoMemory> {
        (
            self.cookie,
            self.verifier,
            (self.dircount, self.maxcount, self.attributes),
        )
            .put(out)
    }

    fn fits(&self) -> bool {
        (
            self.cookie,
            self.verifier,
            (self.dircount, self.maxcount, self.attributes),
        )
            .fits()
    }
}
