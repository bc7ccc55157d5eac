//! Where a page stands among those whose numbers rise.

ghost use Rattle.std.specs.Prelude.{◌≡◌, ℕ, ◌+◌, ◌≤◌, length, take, IfSome, option_map, slice_get};
ghost use Rattle.cluster_model.specs.declared.limits.TheConstants.{MAX_FILE};
ghost use Rattle.file_pages.specs.Pages.{RiseFrom, kept_page};
ghost use Rattle.file_pages.specs.Places.{AreNumberedBelow, IsPagePlace, is_numbered};
ghost use Rattle.file_pages.specs.Steps.{end_touched};

use crate::page::{PAGE, Page};

/// The number behind that of the last page that has a place of a range of at least one byte.
pub fn end_of(at: u64, count: usize) -> u64
    requires { at + count ≤ MAX_FILE }
    ensures { result ≡ end_touched at count }
{
    (at + count as u64 + PAGE - 1) / PAGE
}

/// The place of the first page whose number is not below this one. Of a number behind all others it is found at once.
pub fn seek(pages: &[Page], number: u64) -> usize
    requires { RiseFrom 0 pages.now }
    ensures { IsPagePlace number pages.now result }
{
    match pages.last() {
        Some(page) if page.number() < number => pages.len(),
        _ => pages.partition_point(|page| page.number() < number),
    }
}

/// The same, from a place on: the pages before it have lower numbers. Where it is that place it is found at once.
pub fn seek_from(pages: &[Page], from: usize, number: u64) -> usize
    requires rise { RiseFrom 0 pages.now }
    requires within { from ≤ length pages.now }
    requires below { AreNumberedBelow number (take from pages.now) }
    ensures { IsPagePlace number pages.now result }
{
    match pages.get(from) {
        Some(page) if page.number() < number => from + seek(&pages[from..], number),
        _ => from,
    }
}

/// A page of this number stands at the place.
pub fn is_at(pages: &[Page], place: usize, number: u64) -> bool
    ensures { result ≡ is_numbered number (slice_get pages.now place) }
{
    match pages.get(place) {
        Some(page) => page.number() == number,
        None => false,
    }
}

/// The bytes of the page of a number.
pub fn page_bytes(pages: &[Page], number: u64) -> Option<&[u8]>
    requires { RiseFrom 0 pages.now }
    ensures exact { option_map (λ page. page.now) result ≡ kept_page number pages.now }
    ensures whole { IfSome result (λ page. length page.now ≡ 4096) }
{
    match pages.get(seek(pages, number)) {
        Some(page) if page.number() == number => Some(page.bytes()),
        _ => None,
    }
}
