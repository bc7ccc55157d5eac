//! A set of places: `new`, `insert AT COUNT`, `overlaps AT COUNT`, `gaps AT COUNT`, `parts`.

use cluster_model::MAX_FILE;
use mirror_writer::Extents;
use row_words::{Answer, Part, Words};
use std::alloc::Global;

/// A set of places.
#[derive(Drop)]
pub struct ExtentsRows {
    alloc: Global,
    extents: Extents,
}

impl ExtentsRows {
    /// No places; takes no memory.
    pub fn new(alloc: Global) -> ExtentsRows {
        ExtentsRows {
            alloc,
            extents: Extents::new(alloc),
        }
    }

    /// Adds places, where none of them is in the set and all are of a file.
    fn insert(&mut self, at: u64, count: u64, answer: &mut Answer) {
        if count > MAX_FILE || at > MAX_FILE - count || self.extents.overlaps(at, count) {
            return answer.refuse();
        }
        match self.extents.insert(at, count) {
            Ok(()) => answer.word("Ok"),
            Err(_) => answer.want_memory(),
        }
    }

    /// No places again.
    fn clear(&mut self, words: &mut Words<'_>, answer: &mut Answer) {
        if words.end() {
            self.extents = Extents::new(self.alloc);
            answer.word("Ok");
        }
    }

    fn put_parts(&self, words: &mut Words<'_>, answer: &mut Answer) {
        if words.end() {
            answer.number(self.extents.parts());
        }
    }

    fn put_gaps(&self, at: u64, count: u64, answer: &mut Answer) {
        match self.extents.gaps(at, count) {
            Ok(gaps) => put_places(&gaps, answer),
            Err(_) => answer.want_memory(),
        }
    }
}

/// Places from the first up to the second, with commas between them; `-` is none.
fn put_places(places: &[(u64, u64)], answer: &mut Answer) {
    answer.word("Ok");
    answer.word(if places.is_empty() { "-" } else { "" });
    for (place, one) in places.iter().enumerate() {
        if place > 0 {
            answer.push(",");
        }
        answer.push_number(one.0);
        answer.push(":");
        answer.push_number(one.1);
    }
}

impl Part for ExtentsRows {
    fn call(&mut self, words: &mut Words<'_>, answer: &mut Answer) {
        let name = words.word();
        if name == "new" {
            return self.clear(words, answer);
        }
        if name == "parts" {
            return self.put_parts(words, answer);
        }
        let at = words.number64();
        let count = words.number64();
        if !words.end() {
            return;
        }
        match name {
            "insert" => self.insert(at, count, answer),
            "overlaps" => answer.flag(self.extents.overlaps(at, count)),
            "gaps" => self.put_gaps(at, count, answer),
            _ => answer.refuse(),
        }
    }
}
