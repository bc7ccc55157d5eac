//! Ranges of a file's bytes in XDR (RFC 4506, section 4.14).

ghost use Rattle.std.specs.Prelude.{refl};
ghost use Rattle.ds_log.specs.Bodies.{range_form, range_value};
ghost use Rattle.ds_log.specs.PlainRanges.{plain_range};

use ff_xdr::{Cursor, Message, NoMemory, Opaque, Out, Wire, XdrError};

/// Bytes of any length.
pub type Bytes<'a> = Opaque<'a, { u32::MAX }>;

/// Bytes of a file that became stable.
#[derive(Clone, Copy, Debug, PartialEq, Eq)]
pub struct Range<'a> {
    /// The place of the first byte, counted from the start of the file.
    pub at: u64,
    pub bytes: &'a [u8],
}

impl<'a> Message for Range<'a> {
    ghost form = { range_form };

    ghost meaning = { λ range. range_value (plain_range range) };

    ghost sound = { refl };
}

impl<'a> Wire<'a> for Range<'a> {
    fn read(cursor: &mut Cursor<'a>) -> Result<Range<'a>, XdrError> {
        let (at, bytes) = <(u64, Bytes<'a>)>::read(cursor)?;
        Ok(Range {
            at,
            bytes: bytes.bytes,
        })
    }

    fn put(&self, out: &mut Out) -> Result<(), NoMemory> {
        (self.at, Bytes { bytes: self.bytes }).put(out)
    }

    fn fits(&self) -> bool {
        (self.at, Bytes { bytes: self.bytes }).fits()
    }
}
