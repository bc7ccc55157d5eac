//! Lists of values that stay in their bytes (RFC 4506, section 4.13).

ghost use Rattle.std.specs.Prelude.{◌≡◌, ◌↔◌, ◌<◌, ◌≤◌, ◌^◌, IsTrue, length, map, Ok, Some, ⊤};
ghost use Rattle.std.specs.Iterator.{YieldsFirstBy, item_count};
ghost use Rattle.std.specs.List.{AllByRecursion};
ghost use Rattle.ff_xdr.specs.Form.{Fits, spelling};
ghost use Rattle.ff_xdr.specs.Form as forms;
ghost use Rattle.ff_xdr.specs.Reading.{reading, many_at};
ghost use Rattle.ff_xdr.specs.Calls.{Decodes, Grows};
ghost use Rattle.ff_xdr.specs.Items.{contents, is_list, Walks};

use crate::cursor::Cursor;
use crate::error::{NoMemory, XdrError};
use crate::out::Out;
use crate::place::ItemsPlace;
use crate::wire::{Message, Wire};
use std::alloc::AllocError;
use std::fmt;

/// A list of values: a slice whose form was checked in reading, or values that were handed in.
pub struct Items<'a, T: Message> {
    place: ItemsPlace<'a, T>,
    ghost checked: { IsTrue (is_list T.form place) },
}

impl<'a, T: Message> Clone for Items<'a, T> {
    ghost is_clone = { λ x y. y ≡ x };

    ghost is_infallible = { λ _. ⊤ };

    fn clone(&self) -> Result<Items<'a, T>, AllocError> {
        Ok(*self)
    }
}

impl<'a, T: Message> Copy for Items<'a, T> {}

impl<'a, T: Message> Items<'a, T> {
    /// The list of these values.
    pub fn made(values: &'a [T]) -> Items<'a, T>
        requires { length values.now < 2 ^ 32 }
        ensures { contents T.form T.meaning result.place ≡ map T.meaning values.now }
    {
        Items {
            place: ItemsPlace::Made(values),
        }
    }

    /// How many values there are.
    pub fn len(&self) -> u32
        ensures { result ≡ length (contents T.form T.meaning self.now.place) }
    {
        match self.place {
            ItemsPlace::InBytes { count, .. } => count,
            ItemsPlace::Made(values) => values.len() as u32,
        }
    }
}

/// Goes over so many values.
fn walk<'a, T: Wire<'a>>(cursor: &mut Cursor<'a>, count: u32) -> Result<(), XdrError>
    ensures { Walks cursor.old result cursor.new (many_at (λ place. reading T.form cursor.old.bytes place) count cursor.old.at) }
{
    for _ in 0..count {
        T::read(cursor)?;
    }
    Ok(())
}

impl<'a, T: Wire<'a> + Copy> Items<'a, T> {
    /// Reads a list of at most `max` values. Nothing is copied: the values stay in the slice.
    pub fn read(cursor: &mut Cursor<'a>, max: u32) -> Result<Items<'a, T>, XdrError>
        ensures { Decodes (λ items. contents T.form T.meaning items.place) cursor.old result cursor.new
            (reading (forms.Array max T.form) cursor.old.bytes cursor.old.at) }
    {
        let mut walker = cursor.fork();
        let count = walker.length(max)?;
        let bytes = walker.bytes();
        let at = walker.place();
        walk::<T>(&mut walker, count)?;
        *cursor = walker;
        Ok(Items {
            place: ItemsPlace::InBytes { bytes, at, count },
        })
    }

    /// Goes over the values; takes no memory.
    pub fn items(&self) -> ItemsIter<'a, T>
        ensures { contents T.form T.meaning result.rest ≡ contents T.form T.meaning self.now.place }
    {
        ItemsIter { rest: self.place }
    }

    /// Appends the list's spelling, its count before its values. At an error a part of it may stand.
    pub fn put(&self, out: &mut Out) -> Result<(), NoMemory>
        requires { AllByRecursion (Fits T.form) (contents T.form T.meaning self.now.place) }
        ensures { Grows out.old result out.new (spelling (forms.Array 0 T.form) (contents T.form T.meaning self.now.place)) }
    {
        out.number32(self.len())?;
        for value in self.items() {
            value.put(out)?;
        }
        Ok(())
    }

    /// The list has a spelling, of at most `max` values.
    pub fn fits(&self, max: u32) -> bool
        ensures { IsTrue result ↔ Fits (forms.Array max T.form) (contents T.form T.meaning self.now.place) }
    {
        if self.len() > max {
            return false;
        }
        for value in self.items() {
            if !value.fits() {
                return false;
            }
        }
        true
    }
}

impl<'a, T: Wire<'a> + Copy + fmt::Debug> fmt::Debug for Items<'a, T> {
    fn fmt<W: fmt::Write>(&self, f: &mut fmt::Formatter<W>) -> fmt::Result {
        f.debug_list().entries(self.items()).finish()
    }
}

/// The values of a list, one after the other.
pub struct ItemsIter<'a, T: Message> {
    rest: ItemsPlace<'a, T>,
    ghost checked: { IsTrue (is_list T.form rest) },
}

impl<'a, T: Message> Clone for ItemsIter<'a, T> {
    ghost is_clone = { λ x y. y ≡ x };

    ghost is_infallible = { λ _. ⊤ };

    fn clone(&self) -> Result<ItemsIter<'a, T>, AllocError> {
        Ok(*self)
    }
}

impl<'a, T: Message> Copy for ItemsIter<'a, T> {}

impl<'a, T: Wire<'a> + Copy> Iterator for ItemsIter<'a, T> {
    type Item = T;

    ghost next_gives = { YieldsFirstBy T.meaning (λ s. contents T.form T.meaning s.rest) };

    ghost remaining = { item_count (λ s. contents T.form T.meaning s.rest) };

    fn next(&mut self) -> Option<T> {
        match self.rest {
            ItemsPlace::InBytes { count: 0, .. } => None,
            ItemsPlace::InBytes { bytes, at, count } => {
                let mut cursor = Cursor::at(bytes, at);
                match T::read(&mut cursor) {
                    Ok(value) => {
                        self.rest = ItemsPlace::InBytes {
                            bytes,
                            at: cursor.place(),
                            count: count - 1,
                        };
                        Some(value)
                    }
                    Err(_) => unreachable!(),
                }
            }
            ItemsPlace::Made(values) => {
                let (first, others) = values.split_first()?;
                self.rest = ItemsPlace::Made(others);
                Some(*first)
            }
        }
    }
}
