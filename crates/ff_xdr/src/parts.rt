//! The parts that structures are made of: nothing, pairs, triples, and bytes of a length that both
//! sides know.

ghost use Rattle.ff_xdr.specs.Form.{Void, Pair, Fixed};
ghost use Rattle.ff_xdr.specs.Proper.{pair_is_proper};
ghost use Rattle.std.specs.Prelude.{refl};

use crate::cursor::Cursor;
use crate::error::{NoMemory, XdrError};
use crate::out::Out;
use crate::wire::{Message, Wire};

// No bytes (RFC 4506, section 4.16).
impl Message for () {
    ghost form = { Void };

    ghost meaning = { λ _. tt };

    ghost sound = { refl };
}

impl<'a> Wire<'a> for () {
    fn read(_cursor: &mut Cursor<'a>) -> Result<(), XdrError> {
        Ok(())
    }

    fn put(&self, _out: &mut Out) -> Result<(), NoMemory> {
        Ok(())
    }

    fn fits(&self) -> bool {
        true
    }
}

// One part behind another (RFC 4506, section 4.14).
impl<A: Message, B: Message> Message for (A, B) {
    ghost form = { Pair A.form B.form };

    ghost meaning = { λ parts. (A.meaning parts.0, B.meaning parts.1) };

    ghost sound = { pair_is_proper A.form B.form A.sound B.sound };
}

impl<'a, A: Wire<'a>, B: Wire<'a>> Wire<'a> for (A, B) {
    fn read(cursor: &mut Cursor<'a>) -> Result<(A, B), XdrError> {
        let mut fork = cursor.fork();
        let first = A::read(&mut fork)?;
        let second = B::read(&mut fork)?;
        *cursor = fork;
        Ok((first, second))
    }

    fn put(&self, out: &mut Out) -> Result<(), NoMemory> {
        self.0.put(out)?;
        self.1.put(out)?;
        Ok(())
    }

    fn fits(&self) -> bool {
        self.0.fits() && self.1.fits()
    }
}

// Three parts: the first, and the pair of the others.
impl<A: Message, B: Message, C: Message> Message for (A, B, C) {
    ghost form = { Pair A.form (Pair B.form C.form) };

    ghost meaning = { λ parts. (A.meaning parts.0, (B.meaning parts.1, C.meaning parts.2)) };

    ghost sound = { pair_is_proper A.form (Pair B.form C.form) A.sound (pair_is_proper B.form C.form B.sound C.sound) };
}

impl<'a, A: Wire<'a>, B: Wire<'a>, C: Wire<'a>> Wire<'a> for (A, B, C) {
    fn read(cursor: &mut Cursor<'a>) -> Result<(A, B, C), XdrError> {
        let mut fork = cursor.fork();
        let first = A::read(&mut fork)?;
        let second = B::read(&mut fork)?;
        let third = C::read(&mut fork)?;
        *cursor = fork;
        Ok((first, second, third))
    }

    fn put(&self, out: &mut Out) -> Result<(), NoMemory> {
        self.0.put(out)?;
        self.1.put(out)?;
        self.2.put(out)?;
        Ok(())
    }

    fn fits(&self) -> bool {
        self.0.fits() && self.1.fits() && self.2.fits()
    }
}

// Opaque data of fixed length (RFC 4506, section 4.9).
impl<const N: usize> Message for [u8; N] {
    ghost form = { Fixed N };

    ghost meaning = { λ bytes. bytes };

    ghost sound = { refl };
}

impl<'a, const N: usize> Wire<'a> for [u8; N] {
    fn read(cursor: &mut Cursor<'a>) -> Result<[u8; N], XdrError> {
        let bytes = cursor.fixed(N)?;
        let mut copy = [0; N];
        copy.copy_from_slice(bytes);
        Ok(copy)
    }

    fn put(&self, out: &mut Out) -> Result<(), NoMemory> {
        out.fixed(self)?;
        Ok(())
    }

    fn fits(&self) -> bool {
        true
    }
}
