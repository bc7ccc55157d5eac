//! Rows of entries.

use crate::kinds::read_entry;
use cluster_model::Entry;
use ff_xdr::Out;
use journal_print::put_entry;
use row_words::{Answer, Part, Words};
use std::str;

/// Plays rows of entries, which are lines of the trace.
#[derive(Drop)]
pub struct EntryRows;

/// One line and no more.
fn put_line(printed: &[u8], answer: &mut Answer) {
    let line = str::from_utf8(printed).unwrap_or("");
    match line.strip_suffix("\n") {
        Some(line) => answer.word(line),
        None => answer.refuse(),
    }
}

/// The line of an entry.
fn put_printed(entry: &Entry, answer: &mut Answer) {
    let mut out = Out::new(answer.alloc());
    match put_entry(entry, &mut out) {
        Ok(()) => put_line(out.bytes(), answer),
        Err(_) => answer.want_memory(),
    }
}

impl Part for EntryRows {
    /// The line of the entry that the words say.
    fn call(&mut self, words: &mut Words<'_>, answer: &mut Answer) {
        match read_entry(words) {
            None => answer.refuse(),
            Some(entry) => {
                if words.end() {
                    put_printed(&entry, answer);
                }
            }
        }
    }
}
