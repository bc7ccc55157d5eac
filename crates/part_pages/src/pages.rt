//! Two files' bytes as pages, `a` and `b`: `new`, by which both are empty, `write OF BASE AT HEX`, `fill OF BASE AT COUNT BYTE`, which
//! writes so many equal bytes, `read OF AT COUNT`, `length OF`, `kept OF`, `adopt OF FROM`. OF and FROM are one of the two, BASE the
//! other one, or `-`, an empty one.

use cluster_model::MAX_FILE;
use file_pages::Pages;
use row_words::{Answer, Part, RowFault, Words};
use std::alloc::Global;

/// Two files' bytes.
#[derive(Drop)]
pub struct PagesRows {
    alloc: Global,
    a: Pages,
    b: Pages,
    // never written
    none: Pages,
}

/// Writes bytes over those of a base, where they are some, and bytes of a file.
fn put_write(pages: &mut Pages, base: &Pages, at: u64, bytes: &[u8], answer: &mut Answer) {
    let count = bytes.len() as u64;
    if count == 0 || count > MAX_FILE || at > MAX_FILE - count {
        return answer.refuse();
    }
    match pages.write(base, at, bytes) {
        Ok(()) => answer.word("Ok"),
        Err(_) => answer.want_memory(),
    }
}

/// So many bytes of this value.
fn equal_bytes(count: u64, byte: u8, words: &mut Words<'_>) -> Vec<u8> {
    let alloc = words.alloc();
    if count > MAX_FILE {
        return words.outside(Vec::new(alloc));
    }
    match vec![in alloc; byte; count as usize] {
        Ok(bytes) => bytes,
        Err(_) => {
            words.note(RowFault::NoMemory);
            Vec::new(alloc)
        }
    }
}

/// Reads bytes, as many as there are.
fn put_read(alloc: Global, pages: &Pages, at: u64, count: u64, answer: &mut Answer) {
    if count > MAX_FILE {
        return answer.refuse();
    }
    match vec![in alloc; 0xff; count as usize] {
        Ok(piece) => put_piece(pages, at, piece, answer),
        Err(_) => answer.want_memory(),
    }
}

fn put_piece(pages: &Pages, at: u64, mut piece: Vec<u8>, answer: &mut Answer) {
    let count = pages.read(at, piece.as_mut_slice());
    answer.bytes(&piece[..count]);
}

/// Moves all pages from one to another.
fn put_adopt(pages: &mut Pages, from: &mut Pages, answer: &mut Answer) {
    match pages.adopt(from) {
        Ok(()) => answer.word("Ok"),
        Err(_) => answer.want_memory(),
    }
}

impl PagesRows {
    /// Both empty; takes no memory.
    pub fn new(alloc: Global) -> PagesRows {
        PagesRows {
            alloc,
            a: Pages::new(alloc),
            b: Pages::new(alloc),
            none: Pages::new(alloc),
        }
    }

    /// Both are empty again.
    fn clear(&mut self, words: &mut Words<'_>, answer: &mut Answer) {
        if words.end() {
            self.a = Pages::new(self.alloc);
            self.b = Pages::new(self.alloc);
            answer.word("Ok");
        }
    }

    /// Writes bytes to one of them.
    fn write(&mut self, of: &str, base: &str, at: u64, bytes: &[u8], answer: &mut Answer) {
        match of {
            "a" => self.write_a(base, at, bytes, answer),
            "b" => self.write_b(base, at, bytes, answer),
            _ => answer.refuse(),
        }
    }

    fn write_a(&mut self, base: &str, at: u64, bytes: &[u8], answer: &mut Answer) {
        match base {
            "b" => put_write(&mut self.a, &self.b, at, bytes, answer),
            "-" => put_write(&mut self.a, &self.none, at, bytes, answer),
            _ => answer.refuse(),
        }
    }

    fn write_b(&mut self, base: &str, at: u64, bytes: &[u8], answer: &mut Answer) {
        match base {
            "a" => put_write(&mut self.b, &self.a, at, bytes, answer),
            "-" => put_write(&mut self.b, &self.none, at, bytes, answer),
            _ => answer.refuse(),
        }
    }

    fn put_write(&mut self, words: &mut Words<'_>, answer: &mut Answer) {
        let of = words.word();
        let base = words.word();
        let at = words.number64();
        let bytes = words.bytes();
        if words.end() {
            self.write(of, base, at, &bytes, answer);
        }
    }

    fn put_fill(&mut self, words: &mut Words<'_>, answer: &mut Answer) {
        let of = words.word();
        let base = words.word();
        let at = words.number64();
        let count = words.number64();
        let [byte] = words.sized::<1>();
        let bytes = equal_bytes(count, byte, words);
        if words.end() {
            self.write(of, base, at, &bytes, answer);
        }
    }

    fn put_read(&self, words: &mut Words<'_>, answer: &mut Answer) {
        let of = words.word();
        let at = words.number64();
        let count = words.number64();
        if !words.end() {
            return;
        }
        match of {
            "a" => put_read(self.alloc, &self.a, at, count, answer),
            "b" => put_read(self.alloc, &self.b, at, count, answer),
            _ => answer.refuse(),
        }
    }

    fn put_length(&self, words: &mut Words<'_>, answer: &mut Answer) {
        let of = words.word();
        if !words.end() {
            return;
        }
        match of {
            "a" => answer.number(self.a.length()),
            "b" => answer.number(self.b.length()),
            _ => answer.refuse(),
        }
    }

    fn put_kept(&self, words: &mut Words<'_>, answer: &mut Answer) {
        let of = words.word();
        if !words.end() {
            return;
        }
        match of {
            "a" => answer.number(self.a.kept()),
            "b" => answer.number(self.b.kept()),
            _ => answer.refuse(),
        }
    }

    /// One adopts the other.
    fn put_adopt(&mut self, words: &mut Words<'_>, answer: &mut Answer) {
        let both = words.rest();
        if !words.end() {
            return;
        }
        match both {
            "a b" => put_adopt(&mut self.a, &mut self.b, answer),
            "b a" => put_adopt(&mut self.b, &mut self.a, answer),
            _ => answer.refuse(),
        }
    }
}

impl Part for PagesRows {
    fn call(&mut self, words: &mut Words<'_>, answer: &mut Answer) {
        match words.word() {
            "new" => self.clear(words, answer),
            "write" => self.put_write(words, answer),
            "fill" => self.put_fill(words, answer),
            "read" => self.put_read(words, answer),
            "length" => self.put_length(words, answer),
            "kept" => self.put_kept(words, answer),
            "adopt" => self.put_adopt(words, answer),
            _ => answer.refuse(),
        }
    }
}
