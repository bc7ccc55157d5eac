//! Text (RFC 4506, section 4.11), which is UTF-8 here.

ghost use Rattle.std.specs.Prelude.{◌≡◌, ◌≤◌, length, take, drop, false};
ghost use Rattle.std.specs.Str.{continuation_len, valid_up_to, error_len, is_utf8};
ghost use Rattle.std.specs.Str.Lossy.{utf8_valid_len, utf8_error_len};
ghost use Rattle.ff_xdr.specs.Reading.{text_at, may_begin_text};
ghost use Rattle.ff_xdr.specs.Answers.{Answers, EndsWithin, IsTextOf};

use crate::error::{XdrError, XdrWhy};
use crate::slices::{fixed_at, length_at, short};
use std::str::{self, Utf8Error};

/// How many bytes follow a character's first byte.
fn continuation_len(lead: u8) -> usize
    ensures value { result ≡ continuation_len lead }
    ensures few { result ≤ 3 }
{
    match lead {
        0..=127 => 0,
        128..=223 => 1,
        224..=239 => 2,
        _ => 3,
    }
}

/// The bytes that stand of so many from a place on.
fn front(bytes: &[u8], at: usize, count: usize) -> &[u8]
    requires { at ≤ length bytes.now }
    ensures { result.now ≡ take count (drop at bytes.now) }
{
    let rest = &bytes[at..];
    &rest[..rest.len().min(count)]
}

/// The bytes that are no text, of which `valid` are, could be the beginning of one of `count` bytes.
#[tactic(auto, unfolding(crate::specs::Reading::may_begin_text))]
fn may_go_on(front: &[u8], count: usize, error: Utf8Error) -> bool
    requires no_text { is_utf8 front.now ≡ false }
    requires valid { valid_up_to error ≡ utf8_valid_len front.now }
    requires fault { error_len error ≡ utf8_error_len (drop (valid_up_to error) front.now) }
    ensures { result ≡ may_begin_text count front.now }
{
    let valid = error.valid_up_to();
    let lead = front.get(valid).copied().unwrap_or(0);
    if front.len() >= count || error.error_len().is_some() {
        return false;
    }
    valid < count && continuation_len(lead) < count - valid
}

/// The text that the bytes are, or, where they are none, the length of their front that is text:
/// `None` where a text of `count` bytes could go on behind them.
fn text_of(front: &[u8], count: usize) -> Result<&str, Option<usize>>
    ensures { IsTextOf count front.now result }
{
    match str::from_utf8(front) {
        Ok(text) => Ok(text),
        Err(error) => {
            if may_go_on(front, count, error) {
                return Err(None);
            }
            Err(Some(error.valid_up_to()))
        }
    }
}

/// A length and a text of so many bytes.
#[tactic(auto, unfolding(crate::specs::Reading::text_at))]
pub fn text_at(bytes: &[u8], at: usize, max: u32) -> Result<(&str, usize), XdrError>
    requires { at ≤ length bytes.now }
    ensures value { Answers (λ s. s.now) result (text_at max bytes.now at) }
    ensures within { EndsWithin (length bytes.now) result }
{
    let (count, to) = length_at(bytes, at, max)?;
    let count = count as usize;
    match text_of(front(bytes, to, count), count) {
        Ok(text) => {
            let (_, end) = fixed_at(bytes, to, count)?;
            Ok((text, end))
        }
        Err(None) => Err(short(bytes)),
        Err(Some(valid)) => Err(XdrError {
            place: to + valid,
            why: XdrWhy::NotUtf8,
        }),
    }
}
