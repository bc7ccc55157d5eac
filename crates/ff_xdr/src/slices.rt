//! Items of a slice at a place: the value and the place behind it.

ghost use Rattle.std.specs.Prelude.{◌≡◌, ℕ, ◌+◌, ◌≤◌, ◌<◌, List, length, take, drop, Ok, Err, Result, IfOk};
ghost use Rattle.std.specs.Int.{w32, w64};
ghost use Rattle.ff_xdr.specs.Form.{pad_len};
ghost use Rattle.ff_xdr.specs.Reading.{number_at, padding_at, fixed_at, length_at, opaque_at, flag_at};
ghost use Rattle.ff_xdr.specs.Answers.{Answers, EndsWithin};

use crate::error::{XdrError, XdrWhy};

/// The refusal of an item that the slice's end cuts off.
pub fn short(bytes: &[u8]) -> XdrError
    ensures { result ≡ record { place = length bytes.now; why = XdrWhy.Short } }
{
    XdrError {
        place: bytes.len(),
        why: XdrWhy::Short,
    }
}

/// So many bytes from a place on.
fn part(bytes: &[u8], at: usize, count: usize) -> &[u8]
    requires { at + count ≤ length bytes.now }
    ensures { result.now ≡ take count (drop at bytes.now) }
{
    &bytes[at..at + count]
}

/// The four bytes at a place.
#[tactic(auto, unfolding(crate::specs::Reading::number_at))]
pub fn number32_at(bytes: &[u8], at: usize) -> Result<(u32, usize), XdrError>
    requires { at ≤ length bytes.now }
    ensures value { Answers (λ n. n) result (number_at w32 bytes.now at) }
    ensures within { EndsWithin (length bytes.now) result }
{
    if bytes.len() - at < 4 {
        return Err(short(bytes));
    }
    let word = part(bytes, at, 4);
    let number = u32::from_be_bytes([word[0], word[1], word[2], word[3]]);
    Ok((number, at + 4))
}

/// The eight bytes at a place.
#[tactic(auto, unfolding(crate::specs::Reading::number_at))]
pub fn number64_at(bytes: &[u8], at: usize) -> Result<(u64, usize), XdrError>
    requires { at ≤ length bytes.now }
    ensures value { Answers (λ n. n) result (number_at w64 bytes.now at) }
    ensures within { EndsWithin (length bytes.now) result }
{
    if bytes.len() - at < 8 {
        return Err(short(bytes));
    }
    let long = part(bytes, at, 8);
    let number = u64::from_be_bytes([
        long[0], long[1], long[2], long[3], long[4], long[5], long[6], long[7],
    ]);
    Ok((number, at + 8))
}

/// How many zero bytes make a multiple of four (RFC 4506, section 3).
#[tactic(auto, unfolding(crate::specs::Form::pad_len))]
pub fn pad_len(count: usize) -> usize
    ensures value { result ≡ pad_len count }
    ensures small { result < 4 }
{
    (4 - count % 4) % 4
}

/// The place behind padding of so many bytes.
fn padding_end(bytes: &[u8], at: usize, count: usize) -> Result<usize, XdrError>
    requires place { at ≤ length bytes.now }
    requires few { count < 4 }
    ensures value { result ≡ padding_at count bytes.now at }
    ensures within { IfOk result (λ to. to ≤ length bytes.now) }
{
    let mut place = at;
    for _ in 0..count {
        if place == bytes.len() {
            return Err(short(bytes));
        }
        if bytes[place] != 0 {
            return Err(XdrError {
                place,
                why: XdrWhy::Pad,
            });
        }
        place += 1;
    }
    Ok(place)
}

/// So many bytes and their padding.
#[tactic(auto, unfolding(crate::specs::Reading::fixed_at))]
pub fn fixed_at(bytes: &[u8], at: usize, count: usize) -> Result<(&[u8], usize), XdrError>
    requires { at ≤ length bytes.now }
    ensures value { Answers (λ s. s.now) result (fixed_at count bytes.now at) }
    ensures size { IfOk result (λ r. length r.0.now ≡ count) }
    ensures within { EndsWithin (length bytes.now) result }
{
    if bytes.len() - at < count {
        return Err(short(bytes));
    }
    let to = padding_end(bytes, at + count, pad_len(count))?;
    Ok((part(bytes, at, count), to))
}

/// A length of at most `max`.
#[tactic(auto, unfolding(crate::specs::Reading::length_at))]
pub fn length_at(bytes: &[u8], at: usize, max: u32) -> Result<(u32, usize), XdrError>
    requires { at ≤ length bytes.now }
    ensures value { Answers (λ n. n) result (length_at max bytes.now at) }
    ensures within { EndsWithin (length bytes.now) result }
{
    let (count, to) = number32_at(bytes, at)?;
    if count > max {
        return Err(XdrError {
            place: at,
            why: XdrWhy::TooLong,
        });
    }
    Ok((count, to))
}

/// A length and so many bytes.
#[tactic(auto, unfolding(crate::specs::Reading::opaque_at))]
pub fn opaque_at(bytes: &[u8], at: usize, max: u32) -> Result<(&[u8], usize), XdrError>
    requires { at ≤ length bytes.now }
    ensures value { Answers (λ s. s.now) result (opaque_at max bytes.now at) }
    ensures within { EndsWithin (length bytes.now) result }
{
    let (count, to) = length_at(bytes, at, max)?;
    fixed_at(bytes, to, count as usize)
}

/// A flag.
#[tactic(auto, unfolding(crate::specs::Reading::flag_at))]
pub fn flag_at(bytes: &[u8], at: usize) -> Result<(bool, usize), XdrError>
    requires { at ≤ length bytes.now }
    ensures value { Answers (λ b. b) result (flag_at bytes.now at) }
    ensures within { EndsWithin (length bytes.now) result }
{
    let (number, to) = number32_at(bytes, at)?;
    match number {
        0 => Ok((false, to)),
        1 => Ok((true, to)),
        _ => Err(XdrError {
            place: at,
            why: XdrWhy::NotBool,
        }),
    }
}
