//! One page: a number, and 4,096 bytes.

ghost use Rattle.std.specs.Prelude.{◌≡◌, true, ℕ, ◌+◌, ◌*◌, ◌<◌, ◌≤◌, length, IfOk, IfSome, option_map, get_or, Some, None};
ghost use Rattle.cluster_model.specs.declared.limits.TheConstants.{MAX_FILE};
ghost use Rattle.file_pages.specs.Pages.{touches, byte_in, page_written};
ghost use Rattle.file_pages.specs.Parts.{HasPart};

use std::alloc::{AllocError, Global};
use std::marker::Model;

/// How many bytes a page has.
pub const PAGE: u64 = 4096;

/// A page of a file: the page n has the bytes from 4,096 n on.
#[derive(Drop)]
pub struct Page {
    number: u64,
    bytes: Vec<u8>,
}

impl Model for Page {
    ghost use Rattle.std.specs.Prelude.{◌≡◌, ℕ, List, length};

    ghost Value = { ℕ × List ℕ };

    ghost view = { λ p. (p.number, p.bytes.items) };

    ghost invariant = { λ p. length p.bytes.items ≡ 4096 };
}

/// So many zeros.
fn zeros(alloc: Global, count: usize) -> Result<Vec<u8>, AllocError>
    ensures len { IfOk result (λ bytes. length bytes.items ≡ count) }
    ensures zeros { IfOk result (λ bytes. (i : ℕ) → get_or bytes.items i 0 ≡ 0) }
{
    vec![in alloc; 0; count]
}

impl Page {
    /// Its number.
    pub fn number(&self) -> u64
        ensures { result ≡ self.now.0 }
    {
        self.number
    }

    /// Its 4,096 bytes.
    pub fn bytes(&self) -> &[u8]
        ensures exact { result.now ≡ self.now.1 }
        ensures whole { length result.now ≡ 4096 }
    {
        &self.bytes
    }

    /// Puts the bytes of a write at `at`, as far as the page has their places.
    pub fn write(&mut self, at: u64, bytes: &[u8])
        requires touched { touches at (length bytes.now) self.old.0 ≡ true }
        requires within { at + length bytes.now ≤ MAX_FILE }
        ensures { self.new ≡ (self.old.0, page_written (Some self.old.1) self.old.0 at bytes.now) }
    {
        let start = self.number * PAGE;
        let from = at.max(start);
        let to = (at + bytes.len() as u64).min(start + PAGE);
        let part = &bytes[(from - at) as usize..(to - at) as usize];
        self.bytes[(from - start) as usize..(to - start) as usize].copy_from_slice(part);
    }

    /// Puts those of its bytes into a piece of the file that begins at `at` whose places the piece has.
    pub fn read(&self, at: u64, piece: &mut [u8])
        requires touched { touches at (length piece.old) self.now.0 ≡ true }
        requires within { at + length piece.old ≤ MAX_FILE }
        ensures { HasPart (Some self.now.1) self.now.0 at piece.old piece.new }
    {
        let start = self.number * PAGE;
        let from = at.max(start);
        let to = (at + piece.len() as u64).min(start + PAGE);
        let part = &self.bytes[(from - start) as usize..(to - start) as usize];
        piece[(from - at) as usize..(to - at) as usize].copy_from_slice(part);
    }

    /// A page of this number behind a write at `at` that touches it. It began as the page under it, or with zeros.
    pub fn made(
        alloc: Global,
        number: u64,
        under: Option<&[u8]>,
        at: u64,
        bytes: &[u8],
    ) -> Result<Page, AllocError>
        requires whole { IfSome under (λ page. length page.now ≡ 4096) }
        requires touched { touches at (length bytes.now) number ≡ true }
        requires within { at + length bytes.now ≤ MAX_FILE }
        ensures { IfOk result (λ page. page ≡ (number, page_written (option_map (λ page. page.now) under.entry) number at bytes.now)) }
    {
        let start = number * PAGE;
        if at <= start && start + PAGE <= at + bytes.len() as u64 {
            return Page::covered(
                alloc,
                number,
                &bytes[(start - at) as usize..(start + PAGE - at) as usize],
            );
        }
        let mut page = Page {
            number,
            bytes: begun(alloc, under)?,
        };
        page.write(at, bytes);
        Ok(page)
    }

    /// A page of this number with these bytes.
    fn covered(alloc: Global, number: u64, bytes: &[u8]) -> Result<Page, AllocError>
        requires { length bytes.now ≡ 4096 }
        ensures { IfOk result (λ page. page ≡ (number, bytes.now)) }
    {
        let bytes = Vec::from_slice(alloc, bytes)?;
        Ok(Page { number, bytes })
    }

    /// The same page, copied.
    pub fn try_clone(&self, alloc: Global) -> Result<Page, AllocError>
        ensures { IfOk result (λ page. page ≡ self.now) }
    {
        Page::covered(alloc, self.number, &self.bytes)
    }
}

/// The bytes of the page under a fresh one, or zeros.
fn begun(alloc: Global, under: Option<&[u8]>) -> Result<Vec<u8>, AllocError>
    requires { IfSome under (λ page. length page.now ≡ 4096) }
    ensures len { IfOk result (λ bytes. length bytes.items ≡ 4096) }
    ensures same { IfOk result (λ bytes. (i : ℕ) → get_or bytes.items i 0 ≡ byte_in (option_map (λ page. page.now) under.entry) i) }
{
    match under {
        Some(page) => Vec::from_slice(alloc, page),
        None => zeros(alloc, PAGE as usize),
    }
}

/// Puts zeros into a piece of the file that begins at `at`, where it has the places of the page of this number.
pub fn put_hole(number: u64, at: u64, piece: &mut [u8])
    requires touched { touches at (length piece.old) number ≡ true }
    requires within { at + length piece.old ≤ MAX_FILE }
    ensures { HasPart None number at piece.old piece.new }
{
    let start = number * PAGE;
    let from = at.max(start);
    let to = (at + piece.len() as u64).min(start + PAGE);
    piece[(from - at) as usize..(to - at) as usize].fill(0);
}
