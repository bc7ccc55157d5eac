//! Bytes that are written to pages.

ghost use Rattle.std.specs.Prelude.{◌≡◌, ℕ, ◌+◌, ◌/◌, ◌<◌, ◌≤◌, length, IfOk, OnOk, OnErr, slice_get};
ghost use Rattle.std.specs.Vec.{vec_len, vec_capacity};
ghost use Rattle.cluster_model.specs.declared.limits.TheConstants.{MAX_FILE};
ghost use Rattle.file_pages.specs.Pages.{RiseFrom};
ghost use Rattle.file_pages.specs.Places.{AreSoundPages, IsPagePlace};
ghost use Rattle.file_pages.specs.Steps.{first_touched, end_touched, written_in, AreFresh, is_below, ArePagesWritten};

use crate::adopt::merge;
use crate::find::{end_of, is_at, page_bytes, seek};
use crate::page::{PAGE, Page};
use std::alloc::{AllocError, Global};

/// The touched pages that are not kept, behind the write. `place` is that of the first touched page.
fn fresh_pages(
    alloc: Global,
    pages: &[Page],
    place: usize,
    base: &[Page],
    at: u64,
    bytes: &[u8],
) -> Result<Vec<Page>, AllocError>
    requires place { IsPagePlace (first_touched at) pages.now place }
    requires base { RiseFrom 0 base.now }
    requires within { at + length bytes.now ≤ MAX_FILE }
    requires some { 0 < length bytes.now }
    ensures { IfOk result (λ fresh. AreFresh base.now pages.now at bytes.now (end_touched at (length bytes.now)) fresh.items) }
{
    let mut fresh = Vec::new(alloc);
    let mut place = place;
    for number in at / PAGE..end_of(at, bytes.len()) {
        if is_at(pages, place, number) {
            place += 1;
            continue;
        }
        fresh.push(Page::made(alloc, number, page_bytes(base, number), at, bytes)?)?;
    }
    Ok(fresh)
}

/// The page at the place has a number below this one.
fn is_below(pages: &[Page], place: usize, number: u64) -> bool
    ensures { result ≡ is_below number (slice_get pages.now place) }
{
    match pages.get(place) {
        Some(page) => page.number() < number,
        None => false,
    }
}

/// Writes the kept ones of the touched pages. `place` is that of the first touched page. Takes no memory.
fn write_kept(pages: &mut Vec<Page>, place: usize, at: u64, bytes: &[u8])
    requires place { IsPagePlace (first_touched at) pages.old.items place }
    requires within { at + length bytes.now ≤ MAX_FILE }
    requires some { 0 < length bytes.now }
    ensures items { pages.new.items ≡ written_in at bytes.now pages.old.items }
    ensures capacity { vec_capacity pages.new ≡ vec_capacity pages.old }
{
    let end = end_of(at, bytes.len());
    let mut place = place;
    while is_below(pages, place, end) {
        pages[place].write(at, bytes);
        place += 1;
    }
}

/// Puts at least one byte at a place. A touched page that is not kept begins as that of `base`, or with zeros. All memory is taken
/// before anything is changed.
pub fn write_pages(
    alloc: Global,
    pages: &mut Vec<Page>,
    base: &[Page],
    at: u64,
    bytes: &[u8],
) -> Result<(), AllocError>
    requires kept { AreSoundPages pages.old.items }
    requires base { RiseFrom 0 base.now }
    requires within { at + length bytes.now ≤ MAX_FILE }
    requires some { 0 < length bytes.now }
    ensures ok { OnOk result (ArePagesWritten base.now pages.old.items at bytes.now pages.new.items) }
    ensures err { OnErr result (pages.new.items ≡ pages.old.items) }
{
    let place = seek(pages, at / PAGE);
    let mut fresh = fresh_pages(alloc, pages, place, base, at, bytes)?;
    pages.reserve(fresh.len())?;
    write_kept(pages, place, at, bytes);
    merge(pages, place, &mut fresh);
    Ok(())
}
