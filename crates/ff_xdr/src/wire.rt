//! What every message type has: a form, a meaning, and reading and writing by them.

ghost use Rattle.std.specs.Prelude.{◌↔◌, IsTrue, refl};
ghost use Rattle.ff_xdr.specs.Proper.{is_proper, optional_is_proper};
ghost use Rattle.ff_xdr.specs.Form.{Form, Value, Fits, spelling, Number32, Number64, Hyper, Boolean, Optional};
ghost use Rattle.std.specs.Option.{option_map};
ghost use Rattle.ff_xdr.specs.Reading.{reading, whole};
ghost use Rattle.ff_xdr.specs.Calls.{Decodes, Finds, Grows, Puts};

use crate::cursor::Cursor;
use crate::error::{NoMemory, XdrError};
use crate::out::Out;

/// A type whose values are messages, or parts of messages.
pub trait Message {
    /// The grammar of its messages.
    ghost form: { Form };

    /// The plain value of a message: numbers, flags, byte lists and lists of plain values.
    ghost meaning: { Self → Value form };

    /// The grammar is one that the standard knows, with values of each of its parts (RFC 4506, section
    /// 4), so that all laws of forms hold of it (`every_message_of`).
    ghost sound: { IsTrue (is_proper form) };
}

/// A message that is read from a slice and written to an `Out`.
pub trait Wire<'a>: Message + Drop + Sized {
    /// Reads a message from the cursor's place on. What is read borrows from the cursor's slice.
    /// A refusal names the first byte that no message has there, and leaves the cursor as it was.
    fn read(cursor: &mut Cursor<'a>) -> Result<Self, XdrError>
        ensures { Decodes Self.meaning cursor.old result cursor.new (reading Self.form cursor.old.bytes cursor.old.at) };

    /// Appends the message's spelling. At an error a part of it may stand in `out`.
    fn put(&self, out: &mut Out) -> Result<(), NoMemory>
        requires { Fits Self.form (Self.meaning self.now) }
        ensures { Grows out.old result out.new (spelling Self.form (Self.meaning self.now)) };

    /// The message has a spelling: every length is within its form's maximum.
    fn fits(&self) -> bool
        ensures { IsTrue result ↔ Fits Self.form (Self.meaning self.now) };

    /// A message that is all the bytes. What is read borrows from them. A refusal names the first
    /// byte that no message has there.
    final fn from_bytes(bytes: &'a [u8]) -> Result<Self, XdrError>
        ensures { Finds Self.meaning result (whole bytes.now (reading Self.form bytes.now 0)) }
    {
        let mut cursor = Cursor::new(bytes);
        let message = Self::read(&mut cursor)?;
        cursor.finish()?;
        Ok(message)
    }

    /// Appends the message's spelling, or nothing.
    final fn write(&self, out: &mut Out) -> Result<(), NoMemory>
        requires { Fits Self.form (Self.meaning self.now) }
        ensures { Puts out.old result out.new (spelling Self.form (Self.meaning self.now)) }
    {
        let mark = out.len();
        match self.put(out) {
            Ok(()) => Ok(()),
            Err(e) => {
                out.truncate(mark);
                Err(e)
            }
        }
    }
}

impl Message for u32 {
    ghost form = { Number32 };

    ghost meaning = { λ n. n };

    ghost sound = { refl };
}

impl<'a> Wire<'a> for u32 {
    fn read(cursor: &mut Cursor<'a>) -> Result<u32, XdrError> {
        cursor.number32()
    }

    fn put(&self, out: &mut Out) -> Result<(), NoMemory> {
        out.number32(*self)?;
        Ok(())
    }

    fn fits(&self) -> bool {
        // read, so that the proof knows that the number is in its range
        let _n = *self;
        true
    }
}

impl Message for u64 {
    ghost form = { Number64 };

    ghost meaning = { λ n. n };

    ghost sound = { refl };
}

impl<'a> Wire<'a> for u64 {
    fn read(cursor: &mut Cursor<'a>) -> Result<u64, XdrError> {
        cursor.number64()
    }

    fn put(&self, out: &mut Out) -> Result<(), NoMemory> {
        out.number64(*self)?;
        Ok(())
    }

    fn fits(&self) -> bool {
        // read, so that the proof knows that the number is in its range
        let _n = *self;
        true
    }
}

impl Message for i64 {
    ghost form = { Hyper };

    ghost meaning = { λ z. z };

    ghost sound = { refl };
}

impl<'a> Wire<'a> for i64 {
    fn read(cursor: &mut Cursor<'a>) -> Result<i64, XdrError> {
        cursor.hyper()
    }

    fn put(&self, out: &mut Out) -> Result<(), NoMemory> {
        out.number64(self.cast_unsigned())?;
        Ok(())
    }

    fn fits(&self) -> bool {
        // read, so that the proof knows that the number is in its range
        let _z = *self;
        true
    }
}

impl Message for bool {
    ghost form = { Boolean };

    ghost meaning = { λ b. b };

    ghost sound = { refl };
}

impl<'a> Wire<'a> for bool {
    fn read(cursor: &mut Cursor<'a>) -> Result<bool, XdrError> {
        cursor.flag()
    }

    fn put(&self, out: &mut Out) -> Result<(), NoMemory> {
        out.flag(*self)?;
        Ok(())
    }

    fn fits(&self) -> bool {
        true
    }
}

// Optional data (RFC 4506, section 4.19).
impl<T: Message> Message for Option<T> {
    ghost form = { Optional T.form };

    ghost meaning = { λ o. option_map T.meaning o };

    ghost sound = { optional_is_proper T.form T.sound };
}

impl<'a, T: Wire<'a>> Wire<'a> for Option<T> {
    fn read(cursor: &mut Cursor<'a>) -> Result<Option<T>, XdrError> {
        let mut fork = cursor.fork();
        if !fork.flag()? {
            *cursor = fork;
            return Ok(None);
        }
        let value = T::read(&mut fork)?;
        *cursor = fork;
        Ok(Some(value))
    }

    fn put(&self, out: &mut Out) -> Result<(), NoMemory> {
        match self {
            None => {
                out.flag(false)?;
                Ok(())
            }
            Some(value) => {
                out.flag(true)?;
                value.put(out)?;
                Ok(())
            }
        }
    }

    fn fits(&self) -> bool {
        match self {
            None => true,
            Some(value) => value.fits(),
        }
    }
}
