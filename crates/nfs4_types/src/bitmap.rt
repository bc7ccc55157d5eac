//! Sets of numbers, as of attributes.

ghost use Rattle.nfs4_types.specs.Bitmaps.{bitmap4, bitmap4_value};
ghost use Rattle.std.specs.Prelude.{refl};

use ff_xdr::{Array, Cursor, Items, Message, NoMemory, Out, Wire, XdrError};

/// A set of numbers, `bitmap4` (RFC 8881, section 3.2): number `n` is in it where word `n / 32` has
/// the bit of value `2 ^ (n % 32)`.
#[derive(Clone, Copy, Debug)]
pub struct Bitmap<'a> {
    pub words: Items<'a, u32>,
}

/// The words, as many as a list can have.
type Words<'a> = Array<'a, u32, { u32::MAX }>;

impl<'a> Message for Bitmap<'a> {
    ghost form = { bitmap4 };

    ghost meaning = { bitmap4_value };

    ghost sound = { refl };
}

impl<'a> Wire<'a> for Bitmap<'a> {
    fn read(cursor: &mut Cursor<'a>) -> Result<Bitmap<'a>, XdrError> {
        let words = Words::read(cursor)?;
        Ok(Bitmap { words: words.items })
    }

    fn put(&self, out: &mut Out) -> Result<(), NoMemory> {
        Words { items: self.words }.put(out)
    }

    fn fits(&self) -> bool {
        Words { items: self.words }.fits()
    }
}
