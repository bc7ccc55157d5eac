//! Bytes that are read from pages.

ghost use Rattle.std.specs.Prelude.{◌≡◌, true, ℕ, ◌+◌, ◌<◌, ◌≤◌, length};
ghost use Rattle.cluster_model.specs.declared.limits.TheConstants.{MAX_FILE};
ghost use Rattle.file_pages.specs.Pages.{RiseFrom, kept_page, byte_at, first_bytes, touches};
ghost use Rattle.file_pages.specs.Parts.{HasPart};
ghost use Rattle.file_pages.specs.Places.{IsPagePlace};

use crate::find::{end_of, is_at, seek};
use crate::page::{PAGE, Page, put_hole};

/// Puts those of a page's bytes into a piece of the file that begins at `at` whose places the piece has, or zeros where the page is
/// not kept. Tells the place of the next number.
fn read_page(pages: &[Page], place: usize, number: u64, at: u64, piece: &mut [u8]) -> usize
    requires place { IsPagePlace number pages.now place }
    requires touched { touches at (length piece.old) number ≡ true }
    requires within { at + length piece.old ≤ MAX_FILE }
    ensures part { HasPart (kept_page number pages.now) number at piece.old piece.new }
    ensures next { IsPagePlace (number + 1) pages.now result }
{
    if is_at(pages, place, number) {
        pages[place].read(at, piece);
        return place + 1;
    }
    put_hole(number, at, piece);
    place
}

/// Fills a piece of at least one byte with the bytes from `at` on.
pub fn read_pages(pages: &[Page], at: u64, piece: &mut [u8])
    requires rise { RiseFrom 0 pages.now }
    requires within { at + length piece.old ≤ MAX_FILE }
    requires some { 0 < length piece.old }
    ensures { piece.new ≡ first_bytes (λ i. byte_at pages.now (at + i)) (length piece.old) }
{
    let mut place = seek(pages, at / PAGE);
    for number in at / PAGE..end_of(at, piece.len()) {
        place = read_page(pages, place, number, at, piece);
    }
}
