//! A list of mirrors: `new`, `add MIRROR`, `get PLACE`, and `of MIRRORS`, a list of all that are named. Behind the answers
//! of the first three stands how many there are.

use cluster_model::{Mirror, Mirrors};
use row_words::{Answer, Part, Words};

/// A list of mirrors.
#[derive(Clone, Copy)]
pub struct MirrorsRows {
    mirrors: Mirrors,
}

impl MirrorsRows {
    /// No mirror.
    pub fn new() -> MirrorsRows {
        MirrorsRows {
            mirrors: Mirrors::none(),
        }
    }

    fn clear(&mut self, words: &mut Words<'_>, answer: &mut Answer) {
        if words.end() {
            self.mirrors = Mirrors::none();
            answer.word("Ok");
        }
    }

    fn add(&mut self, words: &mut Words<'_>, answer: &mut Answer) {
        let mirror = words.mirror();
        if words.end() {
            answer.flag(self.mirrors.add(mirror));
        }
    }

    fn get(&self, words: &mut Words<'_>, answer: &mut Answer) {
        let place = words.number32() as usize;
        if words.end() {
            put_found(self.mirrors.get(place), answer);
        }
    }

    fn put_count(&self, answer: &mut Answer) {
        answer.state();
        answer.number(self.mirrors.len() as u64);
    }
}

/// A mirror, or that there is none.
fn put_found(found: Option<Mirror>, answer: &mut Answer) {
    match found {
        None => answer.word("None"),
        Some(mirror) => {
            answer.word("Some");
            answer.mirror(mirror);
        }
    }
}

/// A list, or that there is none.
fn put_list(list: Option<Mirrors>, answer: &mut Answer) {
    match list {
        None => answer.word("None"),
        Some(mirrors) => {
            answer.word("Some");
            answer.mirrors(mirrors);
        }
    }
}

/// The list of these mirrors.
fn put_of(words: &mut Words<'_>, answer: &mut Answer) {
    let mirrors = words.mirror_list();
    if words.end() {
        put_list(Mirrors::of(&mirrors), answer);
    }
}

impl Part for MirrorsRows {
    fn call(&mut self, words: &mut Words<'_>, answer: &mut Answer) {
        match words.word() {
            "new" => self.clear(words, answer),
            "add" => self.add(words, answer),
            "get" => self.get(words, answer),
            "of" => return put_of(words, answer),
            _ => return answer.refuse(),
        }
        self.put_count(answer);
    }
}
