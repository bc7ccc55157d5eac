//! Bytes, texts and arrays of variable length, with their maximum.

ghost use Rattle.std.specs.Prelude.{◌≡◌, ⊤};
ghost use Rattle.ff_xdr.specs.Form as forms;
ghost use Rattle.ff_xdr.specs.Items.{contents};
ghost use Rattle.ff_xdr.specs.Proper.{word_max, opaque_is_proper, text_is_proper, array_is_proper};

use crate::cursor::Cursor;
use crate::error::{NoMemory, XdrError};
use crate::items::Items;
use crate::out::Out;
use crate::wire::{Message, Wire};
use std::alloc::AllocError;
use std::fmt;

/// Opaque data of at most `MAX` bytes (RFC 4506, section 4.10).
#[derive(Clone, Copy, Debug, PartialEq, Eq)]
pub struct Opaque<'a, const MAX: u32> {
    pub bytes: &'a [u8],
}

impl<'a, const MAX: u32> Message for Opaque<'a, MAX> {
    ghost form = { forms.Opaque (word_max MAX) };

    ghost meaning = { λ opaque. opaque.bytes.now };

    ghost sound = { opaque_is_proper MAX };
}

impl<'a, const MAX: u32> Wire<'a> for Opaque<'a, MAX> {
    fn read(cursor: &mut Cursor<'a>) -> Result<Opaque<'a, MAX>, XdrError> {
        let bytes = cursor.opaque(MAX)?;
        Ok(Opaque { bytes })
    }

    fn put(&self, out: &mut Out) -> Result<(), NoMemory> {
        out.opaque(self.bytes)?;
        Ok(())
    }

    fn fits(&self) -> bool {
        self.bytes.len() <= MAX as usize
    }
}

/// A text of at most `MAX` bytes (RFC 4506, section 4.11).
#[derive(Clone, Copy, Debug, PartialEq, Eq)]
pub struct Text<'a, const MAX: u32> {
    pub text: &'a str,
}

impl<'a, const MAX: u32> Message for Text<'a, MAX> {
    ghost form = { forms.Text (word_max MAX) };

    ghost meaning = { λ text. text.text.now };

    ghost sound = { text_is_proper MAX };
}

impl<'a, const MAX: u32> Wire<'a> for Text<'a, MAX> {
    fn read(cursor: &mut Cursor<'a>) -> Result<Text<'a, MAX>, XdrError> {
        let text = cursor.text(MAX)?;
        Ok(Text { text })
    }

    fn put(&self, out: &mut Out) -> Result<(), NoMemory> {
        out.opaque(self.text.as_bytes())?;
        Ok(())
    }

    fn fits(&self) -> bool {
        self.text.as_bytes().len() <= MAX as usize
    }
}

/// At most `MAX` values, one after the other (RFC 4506, section 4.13).
pub struct Array<'a, T: Message, const MAX: u32> {
    pub items: Items<'a, T>,
}

impl<'a, T: Message, const MAX: u32> Clone for Array<'a, T, MAX> {
    ghost is_clone = { λ x y. y ≡ x };

    ghost is_infallible = { λ _. ⊤ };

    fn clone(&self) -> Result<Array<'a, T, MAX>, AllocError> {
        Ok(*self)
    }
}

impl<'a, T: Message, const MAX: u32> Copy for Array<'a, T, MAX> {}

impl<'a, T: Wire<'a> + Copy + fmt::Debug, const MAX: u32> fmt::Debug for Array<'a, T, MAX> {
    fn fmt<W: fmt::Write>(&self, f: &mut fmt::Formatter<W>) -> fmt::Result {
        self.items.fmt(f)
    }
}

impl<'a, T: Message, const MAX: u32> Message for Array<'a, T, MAX> {
    ghost form = { forms.Array (word_max MAX) T.form };

    ghost meaning = { λ array. contents T.form T.meaning array.items.place };

    ghost sound = { array_is_proper MAX T.form T.sound };
}

impl<'a, T: Wire<'a> + Copy, const MAX: u32> Wire<'a> for Array<'a, T, MAX> {
    fn read(cursor: &mut Cursor<'a>) -> Result<Array<'a, T, MAX>, XdrError> {
        let items = Items::read(cursor, MAX)?;
        Ok(Array { items })
    }

    fn put(&self, out: &mut Out) -> Result<(), NoMemory> {
        self.items.put(out)?;
        Ok(())
    }

    fn fits(&self) -> bool {
        self.items.fits(MAX)
    }
}
