//! Why bytes are not in a form, and want of memory.

ghost use Rattle.std.specs.Prelude.{◌≡◌};

use std::alloc::{AllocError, AllocFailed};
use thiserror::Error;

/// Why bytes are refused (RFC 4506).
#[derive(Clone, Copy, Debug, PartialEq, Eq, Error)]
pub enum XdrWhy {
    /// The slice ends before the item does.
    #[error("the bytes end before the item does")]
    Short,
    /// A padding byte is not zero (RFC 4506, section 3).
    #[error("a padding byte is not zero")]
    Pad,
    /// A flag is neither 0 nor 1 (RFC 4506, section 4.4).
    #[error("a flag is neither 0 nor 1")]
    NotBool,
    /// A number is none of the enum's or the union's (RFC 4506, sections 4.3 and 4.15).
    #[error("a number is none of those that may stand here")]
    NotEnum,
    /// A length passes its maximum (RFC 4506, sections 4.10 and 4.13).
    #[error("a length passes its maximum")]
    TooLong,
    /// A text is not UTF-8.
    #[error("a text is not UTF-8")]
    NotUtf8,
    /// Bytes are left behind the last item.
    #[error("bytes are left behind the last item")]
    Rest,
}

/// A refusal: the first byte that no value of the form has there, counted from the slice's start,
/// and the reason.
///
/// The place is the slice's end for `Short`, the bad byte for `Pad`, the first byte of the word for
/// `NotBool`, `NotEnum` and `TooLong`, the first byte of the bad sequence for `NotUtf8`, and the
/// first byte that is left for `Rest`.
#[derive(Clone, Copy, Debug, PartialEq, Eq, Error)]
#[error("at byte {place}: {why}")]
pub struct XdrError {
    pub place: usize,
    pub why: XdrWhy,
}

impl XdrError {
    /// The refusal of a number that is none of an enum's or a union's, at its word (RFC 4506, sections
    /// 4.3 and 4.15).
    pub fn not_enum(place: usize) -> XdrError
        ensures { result ≡ record { place = place; why = XdrWhy.NotEnum } }
    {
        XdrError {
            place,
            why: XdrWhy::NotEnum,
        }
    }
}

/// Memory was wanted and not there.
#[derive(Clone, Copy, Debug, PartialEq, Eq, Error)]
#[error("memory was wanted")]
pub struct NoMemory;

impl From<AllocError> for NoMemory {
    fn from(_e: AllocError) -> NoMemory {
        NoMemory
    }
}

impl<T: Drop> From<AllocFailed<T>> for NoMemory {
    fn from(_e: AllocFailed<T>) -> NoMemory {
        NoMemory
    }
}
