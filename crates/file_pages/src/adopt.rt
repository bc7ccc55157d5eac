//! Pages that take the places of their numbers among others. No call here takes memory.

ghost use Rattle.std.specs.Prelude.{◌≡◌, ℕ, ◌+◌, ◌<◌, ◌≤◌, [], length, take};
ghost use Rattle.std.specs.List.{insert};
ghost use Rattle.std.specs.Vec.{vec_len, vec_capacity};
ghost use Rattle.file_pages.specs.Pages.{kept_page, page_over};
ghost use Rattle.file_pages.specs.Places.{AreSoundPages, AreNumberedBelow, AreNumberedBelowFirst};
ghost use Rattle.file_pages.specs.Steps.{HasPut};

use crate::find::{is_at, seek_from};
use crate::page::Page;

/// Puts a page in at a place, where there is room. At the end it shifts no other.
fn insert_reserved(pages: &mut Vec<Page>, place: usize, page: Page)
    requires within { place ≤ vec_len pages.old }
    requires room { vec_len pages.old < vec_capacity pages.old }
    ensures items { pages.new.items ≡ insert pages.old.items place page }
    ensures capacity { vec_capacity pages.new ≡ vec_capacity pages.old }
{
    if place == pages.len() {
        pages.push_reserved(page);
        return;
    }
    // (it fails only where there is no room)
    let _ = pages.insert(place, page);
}

/// A page takes the place of its number, where the pages before `from` have lower ones. Tells the place behind it.
fn put(pages: &mut Vec<Page>, from: usize, page: Page) -> usize
    requires kept { AreSoundPages pages.old.items }
    requires within { from ≤ vec_len pages.old }
    requires below { AreNumberedBelow page.0 (take from pages.old.items) }
    requires whole { length page.1 ≡ 4096 }
    requires room { vec_len pages.old < vec_capacity pages.old }
    ensures put { HasPut page pages.old.items pages.new.items result }
    ensures capacity { vec_capacity pages.new ≡ vec_capacity pages.old }
{
    let place = seek_from(pages, from, page.number());
    if is_at(pages, place, page.number()) {
        pages[place] = page;
        return place + 1;
    }
    insert_reserved(pages, place, page);
    place + 1
}

/// Each of the dirty pages takes the place of its number, and none is left. The pages before `from` have lower numbers.
pub fn merge(pages: &mut Vec<Page>, from: usize, dirty: &mut Vec<Page>)
    requires kept { AreSoundPages pages.old.items }
    requires dirty { AreSoundPages dirty.old.items }
    requires within { from ≤ vec_len pages.old }
    requires below { AreNumberedBelowFirst (take from pages.old.items) dirty.old.items }
    requires room { vec_len pages.old + vec_len dirty.old ≤ vec_capacity pages.old }
    ensures over { (number : ℕ) → kept_page number pages.new.items ≡ page_over pages.old.items dirty.old.items number }
    ensures kept { AreSoundPages pages.new.items }
    ensures len { vec_len pages.new ≤ vec_len pages.old + vec_len dirty.old }
    ensures none { dirty.new.items ≡ [] }
{
    dirty.reverse();
    let mut next = from;
    while let Some(page) = dirty.pop() {
        next = put(pages, next, page);
    }
}
