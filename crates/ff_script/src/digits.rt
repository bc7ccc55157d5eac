//! Bytes as text: hexadecimal digits in pairs, in lower case, and `-` for no bytes.

ghost use Rattle.std.specs.Prelude.{◌≡◌, ◌*◌, ◌<◌, ◌↔◌, [], length, true, Some, IsTrue, IfOk};
ghost use Rattle.std.specs.List.{list_all};
ghost use Rattle.hex.specs.Hex.{hex_digit_value};
ghost use Rattle.ff_script.specs.Digits.{is_digit, bytes_of_digits, bytes_of_pairs, one_byte};

use ff_xdr::NoMemory;
use std::alloc::Global;
use std::marker::Model;

/// A digit of those that `Digits` may have.
fn is_digit(c: u8) -> bool
    ensures { result ≡ is_digit c }
{
    matches!(c, b'0'..=b'9' | b'a'..=b'f')
}

/// All are such digits. The loop has no way out, so that it goes by blocks.
fn are_digits(text: &[u8]) -> bool
    ensures { result ≡ list_all is_digit text.now }
{
    let mut all = true;
    for c in text {
        all = all & is_digit(*c);
    }
    all
}

/// The value of a digit.
fn digit_value(c: u8) -> u8
    requires { is_digit c ≡ true }
    ensures value { hex_digit_value c ≡ Some result }
    ensures small { result < 16 }
{
    if c <= b'9' { c - b'0' } else { c - b'a' + 10 }
}

/// Puts the bytes that digits in pairs spell.
fn put_bytes(digits: &[u8], bytes: &mut [u8])
    requires digits { list_all is_digit digits.now ≡ true }
    requires pairs { length digits.now ≡ 2 * length bytes.old }
    ensures { bytes.new ≡ bytes_of_pairs digits.now }
{
    for place in 0..bytes.len() {
        bytes[place] = digit_value(digits[2 * place]) * 16 + digit_value(digits[2 * place + 1]);
    }
}

/// Bytes that a text spells, still as digits, which were checked.
#[derive(Debug, Drop)]
pub struct Digits<'a> {
    digits: &'a [u8],
}

impl<'a> Model for Digits<'a> {
    ghost use Rattle.std.specs.Prelude.{List, ℕ, ◌≡◌, ◌%◌, true, length};
    ghost use Rattle.std.specs.List.{list_all};
    ghost use Rattle.ff_script.specs.Digits.{is_digit, bytes_of_pairs};

    ghost Value = { List ℕ };

    ghost view = { λ d. bytes_of_pairs d.digits.now };

    ghost invariant = { λ d. (length d.digits.now % 2 ≡ 0) × (list_all is_digit d.digits.now ≡ true) };
}

impl<'a> Digits<'a> {
    /// The bytes that the text spells: none for `-`, else those of one pair of lower case
    /// hexadecimal digits or more. `None` for any other text. Takes no memory.
    pub fn read(text: &'a [u8]) -> Option<Digits<'a>>
        ensures { result ≡ bytes_of_digits text.now }
    {
        if text == b"-".as_slice() {
            return Some(Digits { digits: &text[..0] });
        }
        if text.is_empty() || text.len() % 2 != 0 || !are_digits(text) {
            return None;
        }
        Some(Digits { digits: text })
    }

    /// How many bytes they are.
    pub fn len(&self) -> usize
        ensures { result ≡ length self.now }
    {
        self.digits.len() / 2
    }

    /// They are no bytes.
    pub fn is_empty(&self) -> bool
        ensures { IsTrue result ↔ (self.now ≡ []) }
    {
        self.digits.is_empty()
    }

    /// The byte, where there is just one.
    pub fn only(&self) -> Option<u8>
        ensures { result ≡ one_byte self.now }
    {
        if self.digits.len() != 2 {
            return None;
        }
        Some(digit_value(self.digits[0]) * 16 + digit_value(self.digits[1]))
    }

    /// The bytes.
    pub fn decode(&self, alloc: Global) -> Result<Vec<u8>, NoMemory>
        ensures { IfOk result (λ bytes. bytes.items ≡ self.now) }
    {
        let mut bytes = vec![in alloc; 0; self.digits.len() / 2]?;
        put_bytes(self.digits, &mut bytes);
        Ok(bytes)
    }
}
