//! Bytes as one word that people can read.

use md5::{Digest, Md5};
use row_words::{Answer, RowFault, Words, number32};
use std::alloc::Global;

/// Bytes are shown as a word where there are no more than these.
const SHORT: usize = 1_000;

/// Bytes that a word stands for, as far as it was read. It notes the first reason why it stands for none.
#[derive(Drop)]
struct Text {
    bytes: Vec<u8>,
    fault: Option<RowFault>,
}

impl Text {
    /// Notes why the word stands for no bytes.
    fn note(&mut self, fault: RowFault) {
        if self.fault.is_none() {
            self.fault = Some(fault);
        }
    }

    /// Appends a byte.
    fn push(&mut self, byte: u8) {
        if self.bytes.push(byte).is_err() {
            self.note(RowFault::NoMemory);
        }
    }

    /// Appends the bytes of letters: `_` is a blank and `;` a newline.
    fn push_letters(&mut self, letters: &str) {
        for letter in letters.as_bytes() {
            match *letter {
                b'_' => self.push(b' '),
                b';' => self.push(b'\n'),
                byte => self.push(byte),
            }
        }
    }

    /// Appends the byte of two digits.
    fn push_byte(&mut self, digits: &str) {
        match u8::from_str_radix(digits, 16) {
            Ok(byte) => self.push(byte),
            Err(_) => self.note(RowFault::Outside),
        }
    }

    /// Appends the byte of two digits, and the bytes of the letters behind them.
    fn push_escaped(&mut self, escaped: &str) {
        self.push_byte(escaped.get(..2).unwrap_or(""));
        self.push_letters(escaped.get(2..).unwrap_or(""));
    }

    /// Appends the bytes of a text in which nothing is repeated.
    fn push_plain(&mut self, plain: &str) {
        let Some((letters, rest)) = plain.split_once("\\") else {
            return self.push_letters(plain);
        };
        self.push_letters(letters);
        for escaped in rest.split('\\') {
            self.push_escaped(escaped);
        }
    }

    /// Appends these bytes so many times.
    fn push_often(&mut self, once: &[u8], count: u32) {
        for _ in 0..count {
            if self.bytes.extend_from_slice(once).is_err() {
                return self.note(RowFault::NoMemory);
            }
        }
    }

    /// Appends the bytes of a plain text so many times.
    fn push_times(&mut self, alloc: Global, digits: &str, plain: &str) {
        let mut once = Text {
            bytes: Vec::new(alloc),
            fault: None,
        };
        once.push_plain(plain);
        if let Some(fault) = once.fault {
            self.note(fault);
        }
        match number32(digits) {
            Ok(count) => self.push_often(&once.bytes, count),
            Err(fault) => self.note(fault),
        }
    }

    /// Appends the bytes of `N(PLAIN)PLAIN`: those of the first so many times, and of the second.
    fn push_repeated(&mut self, alloc: Global, repeated: &str) {
        let Some((digits, rest)) = repeated.split_once("(") else {
            return self.note(RowFault::Outside);
        };
        let Some((once, behind)) = rest.split_once(")") else {
            return self.note(RowFault::Outside);
        };
        self.push_times(alloc, digits, once);
        self.push_plain(behind);
    }

    /// Appends the bytes of a word.
    fn push_word(&mut self, alloc: Global, word: &str) {
        let Some((plain, rest)) = word.split_once("*") else {
            return self.push_plain(word);
        };
        self.push_plain(plain);
        for repeated in rest.split('*') {
            self.push_repeated(alloc, repeated);
        }
    }
}

/// The bytes of a word: printable characters stand for themselves, `_` for a blank and `;` for a newline, `\` and two
/// hexadecimal digits for any byte, and `*N(..)` for what stands in the brackets, N times. `-` is no bytes.
pub fn read_text(words: &mut Words<'_>) -> Vec<u8> {
    let mut text = Text {
        bytes: Vec::new(words.alloc()),
        fault: None,
    };
    if !words.is_none() {
        text.push_word(words.alloc(), words.word());
    }
    if let Some(fault) = text.fault {
        words.note(fault);
    }
    text.bytes
}

/// Appends a byte as its two digits.
fn push_escaped(byte: u8, answer: &mut Answer) {
    answer.push("\\");
    answer.push_digits(byte);
}

/// Appends a byte to the last word.
fn push_byte(byte: u8, answer: &mut Answer) {
    match byte {
        b' ' => answer.push("_"),
        b'\n' => answer.push(";"),
        b'_' | b';' | b'\\' | b'*' => push_escaped(byte, answer),
        0x21..=0x7e => answer.push_char(char::from(byte)),
        _ => push_escaped(byte, answer),
    }
}

/// Bytes as a word.
fn put_word(bytes: &[u8], answer: &mut Answer) {
    if bytes.is_empty() {
        return answer.word("-");
    }
    if bytes == b"-".as_slice() {
        return answer.word("\\2d");
    }
    answer.word("");
    for byte in bytes {
        push_byte(*byte, answer);
    }
}

/// The last line, without its newline.
fn last_line(bytes: &[u8]) -> &[u8] {
    let lines = bytes.strip_suffix(b"\n").unwrap_or(bytes);
    match lines.iter().rposition(|byte| *byte == b'\n') {
        Some(at) => lines.get(at.saturating_add(1)..).unwrap_or(lines),
        None => lines,
    }
}

/// Bytes as a word. Of more than 1,000 they are `long`, how many there are, their MD5 and their last line.
pub fn put_text(bytes: &[u8], answer: &mut Answer) {
    if bytes.len() <= SHORT {
        return put_word(bytes, answer);
    }
    answer.word("long");
    answer.number(bytes.len() as u64);
    answer.bytes(&Md5::digest(bytes));
    put_word(last_line(bytes), answer);
}
