//! What a row asks of bytes.

ghost use Rattle.std.specs.Prelude.{◌<◌, ◌^◌, length, map};
ghost use Rattle.std.specs.Bool.{OnTrue};
ghost use Rattle.std.specs.List.{AllByRecursion};
ghost use Rattle.ff_xdr.specs.Form.{Fits};

use crate::show::{put_refusal, put_value};
use ff_xdr::{Items, Out, Wire, XdrError, XdrWhy};
use row_words::{Answer, RowFault, Words};
use std::fmt;

/// What a row asks of bytes.
#[derive(Clone, Copy)]
pub enum Ask {
    /// Which value they are.
    Value,
    /// Whether they are refused wherever they are cut, and with a byte behind them.
    Cut,
}

/// The bytes that a word says, and a zero behind them.
pub fn longer_bytes(words: &mut Words<'_>) -> Vec<u8> {
    let mut bytes = words.bytes();
    if bytes.push(0).is_err() {
        words.note(RowFault::NoMemory);
    }
    bytes
}

/// The bytes of a row, without the zero behind them.
pub fn row_bytes(longer: &[u8]) -> &[u8] {
    match longer.split_last() {
        Some((_, bytes)) => bytes,
        None => longer,
    }
}

/// The refusal of so many bytes, where the first `end` of them are a value.
fn refusal_at(count: usize, end: usize) -> Option<XdrError> {
    if count < end {
        Some(XdrError {
            place: count,
            why: XdrWhy::Short,
        })
    } else if count == end {
        None
    } else {
        Some(XdrError {
            place: end,
            why: XdrWhy::Rest,
        })
    }
}

/// `Ok` where the bytes are a value, every cut of them is refused as short at its end, and the zero behind them as
/// left over; else the first length at which it is not so.
pub fn put_cut<'a, F: Fn(&'a [u8]) -> Option<XdrError>>(
    longer: &'a [u8],
    refusal: F,
    answer: &mut Answer,
)
    requires { F.IsAlwaysCallable refusal }
{
    let end = row_bytes(longer).len();
    for count in 0..=longer.len() {
        if refusal(&longer[..count]) != refusal_at(count, end) {
            return answer.number(count as u64);
        }
    }
    answer.word("Ok");
}

/// The value spells these bytes.
fn is_spelled<'a, T: Wire<'a>>(value: &T, bytes: &[u8], answer: &mut Answer) -> bool {
    if !value.fits() {
        return false;
    }
    let mut out = Out::new(answer.alloc());
    if value.write(&mut out).is_err() {
        answer.want_memory();
    }
    out.bytes() == bytes
}

/// Each of the values has a spelling.
pub fn all_fit<'a, T: Wire<'a> + Copy>(values: &'a [T]) -> bool
    requires { length values.now < 2 ^ 32 }
    ensures { OnTrue result (AllByRecursion (Fits T.form) (map T.meaning values.now)) }
{
    Items::made(values).fits(u32::MAX)
}

/// The value that bytes are, or why they are none.
fn put_read<'a, T: Wire<'a> + fmt::Debug>(bytes: &'a [u8], answer: &mut Answer) {
    match T::from_bytes(bytes) {
        Ok(value) => {
            let is_spelled = is_spelled(&value, bytes, answer);
            put_value(&value, is_spelled, answer);
        }
        Err(error) => put_refusal(error, answer),
    }
}

/// What is asked of the bytes of a message, behind which a zero stands.
pub fn put_message<'a, T: Wire<'a> + fmt::Debug>(ask: Ask, longer: &'a [u8], answer: &mut Answer) {
    match ask {
        Ask::Cut => put_cut(longer, |bytes| T::from_bytes(bytes).err(), answer),
        Ask::Value => put_read::<T>(row_bytes(longer), answer),
    }
}
