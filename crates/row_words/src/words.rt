//! The words of a line.

use crate::fault::RowFault;
use crate::numbers::{number32, number64};
use std::alloc::Global;

/// The words of a line that are still to be read, one blank between two of them. They note the first reason why the line
/// has no answer; what is read then is anything, and [`Words::end`] says no.
#[derive(Drop)]
pub struct Words<'a> {
    alloc: Global,
    rest: Option<&'a str>,
    fault: Option<RowFault>,
}

/// A letter A to Z is among them.
fn has_capital(digits: &str) -> bool {
    for byte in digits.as_bytes() {
        if byte.is_ascii_uppercase() {
            return true;
        }
    }
    false
}

impl<'a> Words<'a> {
    /// Those of this line.
    pub fn of(alloc: Global, line: &'a str) -> Words<'a> {
        Words {
            alloc,
            rest: Some(line),
            fault: None,
        }
    }

    /// The allocator that the words take memory from.
    pub fn alloc(&self) -> Global {
        self.alloc
    }

    /// Why the line has no answer, if something was noted.
    pub fn fault(&self) -> Option<RowFault> {
        self.fault
    }

    /// Notes why the line has no answer.
    pub fn note(&mut self, fault: RowFault) {
        if self.fault.is_none() {
            self.fault = Some(fault);
        }
    }

    /// The line is out of its form; gives this in place of what it should say.
    pub fn outside<T>(&mut self, instead: T) -> T {
        self.note(RowFault::Outside);
        instead
    }

    /// All words were in their form, and none is left, which is noted else.
    pub fn end(&mut self) -> bool {
        if self.rest.is_some() {
            self.note(RowFault::Outside);
        }
        self.fault.is_none()
    }

    /// No word is left.
    pub fn is_empty(&self) -> bool {
        self.rest.is_none()
    }

    /// The next word, which is not empty.
    pub fn word(&mut self) -> &'a str {
        let line = self.rest.unwrap_or("");
        match line.split_once(" ") {
            Some((word, rest)) => {
                self.rest = Some(rest);
                self.filled(word)
            }
            None => {
                self.rest = None;
                self.filled(line)
            }
        }
    }

    fn filled(&mut self, word: &'a str) -> &'a str {
        if word.is_empty() {
            self.note(RowFault::Outside);
        }
        word
    }

    /// What stands before this mark, which is read too.
    pub fn before(&mut self, mark: &str) -> &'a str {
        let line = self.rest.unwrap_or("");
        match line.split_once(mark) {
            Some((front, rest)) => {
                self.rest = Some(rest);
                front
            }
            None => self.outside(""),
        }
    }

    /// This stands here, and is read.
    pub fn skip(&mut self, mark: &str) {
        match self.rest.unwrap_or("").strip_prefix(mark) {
            Some(rest) => self.rest = Some(rest),
            None => self.note(RowFault::Outside),
        }
    }

    /// Whether the next word is `-`, which is read then.
    pub fn is_none(&mut self) -> bool {
        let line = self.rest.unwrap_or("");
        if line == "-" {
            self.rest = None;
            return true;
        }
        match line.strip_prefix("- ") {
            Some(rest) => {
                self.rest = Some(rest);
                true
            }
            None => false,
        }
    }

    /// All that is left of the line, which may be nothing.
    pub fn rest(&mut self) -> &'a str {
        let rest = self.rest.unwrap_or("");
        self.rest = None;
        rest
    }

    /// The words of an item are read, and these go on behind it.
    pub fn behind(&mut self, mut item: Words<'_>) {
        item.end();
        if let Some(fault) = item.fault {
            self.note(fault);
        }
    }

    /// The number below 2^64 that the digits write.
    pub fn in64(&mut self, digits: &str) -> u64 {
        match number64(digits) {
            Ok(number) => number,
            Err(fault) => {
                self.note(fault);
                0
            }
        }
    }

    /// The number below 2^32 that the digits write.
    pub fn in32(&mut self, digits: &str) -> u32 {
        match number32(digits) {
            Ok(number) => number,
            Err(fault) => {
                self.note(fault);
                0
            }
        }
    }

    /// A number below 2^64.
    pub fn number64(&mut self) -> u64 {
        let digits = self.word();
        self.in64(digits)
    }

    /// A number below 2^32.
    pub fn number32(&mut self) -> u32 {
        let digits = self.word();
        self.in32(digits)
    }

    /// A number below 2^64 before this mark.
    pub fn number64_before(&mut self, mark: &str) -> u64 {
        let digits = self.before(mark);
        self.in64(digits)
    }

    /// A number below 2^32 before this mark.
    pub fn number32_before(&mut self, mark: &str) -> u32 {
        let digits = self.before(mark);
        self.in32(digits)
    }

    /// `0` or `1`.
    pub fn flag(&mut self) -> bool {
        match self.word() {
            "0" => false,
            "1" => true,
            _ => self.outside(false),
        }
    }

    /// A number below 2^32, or `-`.
    pub fn option32(&mut self) -> Option<u32> {
        if self.is_none() {
            return None;
        }
        Some(self.number32())
    }

    /// The bytes that digits write.
    fn in_bytes(&mut self, digits: &str) -> Vec<u8> {
        if digits == "-" {
            return Vec::new(self.alloc);
        }
        if has_capital(digits) {
            return self.outside(Vec::new(self.alloc));
        }
        match hex::decode(self.alloc, digits) {
            Ok(bytes) => bytes,
            Err(hex::FromHexError::OutOfMemory) => {
                self.note(RowFault::NoMemory);
                Vec::new(self.alloc)
            }
            Err(_) => self.outside(Vec::new(self.alloc)),
        }
    }

    /// The same bytes so many times.
    fn repeated(&mut self, once: &[u8], count: u32) -> Vec<u8> {
        let mut bytes = Vec::new(self.alloc);
        for _ in 0..count {
            if bytes.extend_from_slice(once).is_err() {
                self.note(RowFault::NoMemory);
                return bytes;
            }
        }
        bytes
    }

    /// Bytes in pairs of lower case hexadecimal digits, `-` for none; `0a*3` stands for the same bytes three times.
    pub fn bytes(&mut self) -> Vec<u8> {
        let word = self.word();
        match word.split_once("*") {
            None => self.in_bytes(word),
            Some((digits, count)) => {
                let once = self.in_bytes(digits);
                let count = self.in32(count);
                self.repeated(&once, count)
            }
        }
    }

    /// So many bytes.
    pub fn sized<const N: usize>(&mut self) -> [u8; N] {
        let bytes = self.bytes();
        match <[u8; N]>::try_from(bytes.as_slice()) {
            Ok(sized) => sized,
            Err(_) => self.outside([0; N]),
        }
    }
}
