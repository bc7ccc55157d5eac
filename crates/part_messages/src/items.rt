//! The items of XDR, one behind another.

use crate::show::put_refusal;
use ff_xdr::{Cursor, Data, Items, NoMemory, Out, Wire, XdrError};
use row_words::{Answer, RowFault, Words};
use std::fmt;

/// What a cursor is asked for.
#[derive(Clone, Copy)]
enum Item {
    Number32,
    Number64,
    Flag,
    Optional,
    Fixed(u32),
    Opaque(u32),
    Text(u32),
    Length(u32),
    List(u32),
}

/// An item without a number.
fn plain_item(name: &str) -> Option<Item> {
    match name {
        "u32" => Some(Item::Number32),
        "u64" => Some(Item::Number64),
        "bool" => Some(Item::Flag),
        "option" => Some(Item::Optional),
        _ => None,
    }
}

/// An item with its length, or the most that its length may be.
fn sized_item(name: &str, size: u32) -> Option<Item> {
    match name {
        "fixed" => Some(Item::Fixed(size)),
        "opaque" => Some(Item::Opaque(size)),
        "text" => Some(Item::Text(size)),
        "length" => Some(Item::Length(size)),
        "list" => Some(Item::List(size)),
        _ => None,
    }
}

/// `u32`, or `opaque:8`.
fn item_of(word: &str, words: &mut Words<'_>) -> Option<Item> {
    match word.split_once(":") {
        None => plain_item(word),
        Some((name, size)) => sized_item(name, words.in32(size)),
    }
}

/// The values of items so far, and their spelling.
#[derive(Drop)]
struct Values {
    answer: Answer,
    out: Out,
}

impl Values {
    /// Whether memory was wanted for the spelling.
    fn note(&mut self, spelled: Result<(), NoMemory>) {
        if spelled.is_err() {
            self.answer.want_memory();
        }
    }

    /// A value, which is spelled again.
    fn put_wire<'a, T: Wire<'a> + fmt::Debug>(
        &mut self,
        cursor: &mut Cursor<'a>,
    ) -> Result<(), XdrError> {
        let value = T::read(cursor)?;
        if value.fits() {
            let spelled = value.write(&mut self.out);
            self.note(spelled);
        }
        self.answer.debug(&value);
        Ok(())
    }

    /// Bytes, which are spelled again.
    fn put_fixed(&mut self, read: Result<&[u8], XdrError>) -> Result<(), XdrError> {
        let bytes = read?;
        let spelled = self.out.fixed(bytes);
        self.note(spelled);
        self.answer.debug(&bytes);
        Ok(())
    }

    /// Bytes, which are spelled again behind their length.
    fn put_opaque(&mut self, read: Result<&[u8], XdrError>) -> Result<(), XdrError> {
        let bytes = read?;
        if bytes.len() <= u32::MAX as usize {
            let spelled = self.out.opaque(bytes);
            self.note(spelled);
        }
        self.answer.debug(&bytes);
        Ok(())
    }

    /// The same of the bytes of a text.
    fn put_text(&mut self, read: Result<&str, XdrError>) -> Result<(), XdrError> {
        self.put_opaque(Ok(read?.as_bytes()))
    }

    /// A length, which is spelled again.
    fn put_length(&mut self, read: Result<u32, XdrError>) -> Result<(), XdrError> {
        let length = read?;
        let spelled = self.out.number32(length);
        self.note(spelled);
        self.answer.debug(&length);
        Ok(())
    }

    /// A list of at most so many, which is spelled again where it has a spelling.
    fn put_list(&mut self, max: u32, cursor: &mut Cursor<'_>) -> Result<(), XdrError> {
        let list = Items::<u32>::read(cursor, max)?;
        if list.fits(max) {
            let spelled = list.put(&mut self.out);
            self.note(spelled);
        }
        self.answer.debug(&list);
        Ok(())
    }

    /// The value of an item, which is spelled again.
    fn put_item(&mut self, item: Item, cursor: &mut Cursor<'_>) -> Result<(), XdrError> {
        match item {
            Item::Number32 => self.put_wire::<u32>(cursor),
            Item::Number64 => self.put_wire::<u64>(cursor),
            Item::Flag => self.put_wire::<bool>(cursor),
            Item::Optional => self.put_wire::<Option<u32>>(cursor),
            Item::Fixed(count) => self.put_fixed(cursor.fixed(count as usize)),
            Item::Opaque(max) => self.put_opaque(cursor.opaque(max)),
            Item::Text(max) => self.put_text(cursor.text(max)),
            Item::Length(max) => self.put_length(cursor.length(max)),
            Item::List(max) => self.put_list(max, cursor),
        }
    }

    /// The values of all items of a list; answers whether they spell the bytes again.
    fn put_items(
        &mut self,
        list: &str,
        bytes: &[u8],
        words: &mut Words<'_>,
    ) -> Result<bool, XdrError> {
        let mut cursor = Cursor::new(bytes);
        for word in list.split(',') {
            match item_of(word, words) {
                Some(item) => self.put_item(item, &mut cursor)?,
                None => words.note(RowFault::Outside),
            }
        }
        cursor.finish()?;
        Ok(self.out.bytes() == bytes)
    }
}

/// The values of all items, and whether they spell the bytes again.
fn put_values(values: Values, is_spelled: bool, answer: &mut Answer) {
    match values.answer.into_text() {
        Ok(text) => {
            answer.word(text.as_str());
            answer.state();
            answer.flag(is_spelled);
        }
        Err(fault) => answer.note(fault),
    }
}

/// `items LIST HEX`: the values of items that stand one behind another, of a text its bytes.
pub fn put_items(words: &mut Words<'_>, answer: &mut Answer) {
    let list = words.word();
    let bytes = words.bytes();
    if !words.end() {
        return;
    }
    let mut values = Values {
        answer: Answer::new(answer.alloc()),
        out: Out::new(answer.alloc()),
    };
    match values.put_items(list, bytes.as_slice(), words) {
        Ok(is_spelled) => put_values(values, is_spelled, answer),
        Err(error) => put_refusal(error, answer),
    }
}

/// `raw HEX COUNT`: bytes as they are, cut back to so many.
pub fn put_raw(words: &mut Words<'_>, answer: &mut Answer) {
    let bytes = words.bytes();
    let count = words.number32() as usize;
    if !words.end() {
        return;
    }
    let mut out = Out::new(answer.alloc());
    if out.raw(bytes.as_slice()).is_err() {
        return answer.want_memory();
    }
    out.truncate(count);
    answer.bytes(out.bytes());
    answer.bytes(out.into_bytes().as_slice());
}

/// `data HEX`: a copy of bytes.
pub fn put_data(words: &mut Words<'_>, answer: &mut Answer) {
    let bytes = words.bytes();
    if !words.end() {
        return;
    }
    match Data::of(answer.alloc(), bytes.as_slice()) {
        Ok(data) => answer.bytes(data.bytes()),
        Err(_) => answer.want_memory(),
    }
}
