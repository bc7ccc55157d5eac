//! A cursor that reads a slice item by item.

ghost use Rattle.std.specs.Prelude.{◌≡◌, ℕ, ◌≤◌, length, IfOk};
ghost use Rattle.std.specs.Int.{w32, w64};
ghost use Rattle.ff_xdr.specs.Reading.{number_at, hyper_at, fixed_at, opaque_at, text_at, flag_at, length_at, rest_of};
ghost use Rattle.ff_xdr.specs.Calls.{Place, Decodes};

use crate::error::{XdrError, XdrWhy};
use crate::slices::{fixed_at, flag_at, length_at, number32_at, number64_at, opaque_at};
use crate::text::text_at;
use std::marker::Model;

/// Reads a slice from a place on. After a refusal the cursor stands where it stood.
#[derive(Drop)]
pub struct Cursor<'a> {
    bytes: &'a [u8],
    at: usize,
}

impl<'a> Model for Cursor<'a> {
    ghost use Rattle.std.specs.Prelude.{◌≤◌, length};
    ghost use Rattle.ff_xdr.specs.Calls.{Place};

    ghost Value = { Place };

    ghost view = { λ c. record { bytes = c.bytes.now; at = c.at } };

    ghost invariant = { λ c. c.at ≤ length c.bytes.now };
}

impl<'a> Cursor<'a> {
    /// A cursor at the start of the bytes.
    pub fn new(bytes: &'a [u8]) -> Cursor<'a>
        ensures { result ≡ record { bytes = bytes.now; at = 0 } }
    {
        Cursor { bytes, at: 0 }
    }

    /// A cursor at a place.
    pub fn at(bytes: &'a [u8], at: usize) -> Cursor<'a>
        requires { at ≤ length bytes.now }
        ensures { result ≡ record { bytes = bytes.now; at = at } }
    {
        Cursor { bytes, at }
    }

    /// How many bytes were taken.
    pub fn place(&self) -> usize
        ensures place { result ≡ self.now.at }
        ensures within { self.now.at ≤ length self.now.bytes }
    {
        self.at
    }

    /// All the bytes, the taken ones too.
    pub fn bytes(&self) -> &'a [u8]
        ensures { result.now ≡ self.now.bytes }
    {
        self.bytes
    }

    /// A second cursor at the same place.
    pub fn fork(&self) -> Cursor<'a>
        ensures { result ≡ self.now }
    {
        Cursor {
            bytes: self.bytes,
            at: self.at,
        }
    }

    /// An unsigned integer (RFC 4506, section 4.2). Refused as `Short`.
    pub fn number32(&mut self) -> Result<u32, XdrError>
        ensures { Decodes (λ n. n) self.old result self.new (number_at w32 self.old.bytes self.old.at) }
    {
        let (number, to) = number32_at(self.bytes, self.at)?;
        self.at = to;
        Ok(number)
    }

    /// An unsigned hyper integer (RFC 4506, section 4.5). Refused as `Short`.
    pub fn number64(&mut self) -> Result<u64, XdrError>
        ensures { Decodes (λ n. n) self.old result self.new (number_at w64 self.old.bytes self.old.at) }
    {
        let (number, to) = number64_at(self.bytes, self.at)?;
        self.at = to;
        Ok(number)
    }

    /// A hyper integer, which is signed (RFC 4506, section 4.5). Refused as `Short`.
    #[tactic(auto, unfolding(crate::specs::Reading::hyper_at))]
    pub fn hyper(&mut self) -> Result<i64, XdrError>
        ensures { Decodes (λ z. z) self.old result self.new (hyper_at self.old.bytes self.old.at) }
    {
        let bits = self.number64()?;
        Ok(bits.cast_signed())
    }

    /// A boolean (RFC 4506, section 4.4). Refused as `Short` or `NotBool`.
    pub fn flag(&mut self) -> Result<bool, XdrError>
        ensures { Decodes (λ b. b) self.old result self.new (flag_at self.old.bytes self.old.at) }
    {
        let (flag, to) = flag_at(self.bytes, self.at)?;
        self.at = to;
        Ok(flag)
    }

    /// `n` bytes of opaque data (RFC 4506, section 4.9). Refused as `Short` or `Pad`.
    pub fn fixed(&mut self, n: usize) -> Result<&'a [u8], XdrError>
        ensures read { Decodes (λ s. s.now) self.old result self.new (fixed_at n self.old.bytes self.old.at) }
        ensures size { IfOk result (λ s. length s.now ≡ n) }
    {
        let (bytes, to) = fixed_at(self.bytes, self.at, n)?;
        self.at = to;
        Ok(bytes)
    }

    /// Opaque data of at most `max` bytes (RFC 4506, section 4.10). Refused as `Short`, `TooLong` or
    /// `Pad`.
    pub fn opaque(&mut self, max: u32) -> Result<&'a [u8], XdrError>
        ensures { Decodes (λ s. s.now) self.old result self.new (opaque_at max self.old.bytes self.old.at) }
    {
        let (bytes, to) = opaque_at(self.bytes, self.at, max)?;
        self.at = to;
        Ok(bytes)
    }

    /// A text of at most `max` bytes (RFC 4506, section 4.11). Refused as `opaque`, and as `NotUtf8`.
    pub fn text(&mut self, max: u32) -> Result<&'a str, XdrError>
        ensures { Decodes (λ s. s.now) self.old result self.new (text_at max self.old.bytes self.old.at) }
    {
        let (text, to) = text_at(self.bytes, self.at, max)?;
        self.at = to;
        Ok(text)
    }

    /// The length of a list or of opaque data, at most `max` (RFC 4506, sections 4.10 and 4.13).
    /// Refused as `Short` or `TooLong`.
    pub fn length(&mut self, max: u32) -> Result<u32, XdrError>
        ensures { Decodes (λ n. n) self.old result self.new (length_at max self.old.bytes self.old.at) }
    {
        let (count, to) = length_at(self.bytes, self.at, max)?;
        self.at = to;
        Ok(count)
    }

    /// The end of the slice. Refused as `Rest`, at the first byte that is left.
    pub fn finish(self) -> Result<(), XdrError>
        ensures { result ≡ rest_of self.entry.bytes self.entry.at }
    {
        if self.at < self.bytes.len() {
            return Err(XdrError {
                place: self.at,
                why: XdrWhy::Rest,
            });
        }
        Ok(())
    }
}
