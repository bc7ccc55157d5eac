//! The answer to a row.

use crate::fault::RowFault;
use std::alloc::Global;
use std::fmt;

/// The words of an answer, in order. It notes the first reason why there is none; what is appended then is not read.
#[derive(Drop)]
pub struct Answer {
    alloc: Global,
    text: String,
    fault: Option<RowFault>,
}

impl Answer {
    /// No word yet; takes no memory.
    pub fn new(alloc: Global) -> Answer {
        Answer {
            alloc,
            text: String::new(alloc),
            fault: None,
        }
    }

    /// The allocator that the answer takes memory from.
    pub fn alloc(&self) -> Global {
        self.alloc
    }

    /// Why there is no answer, if something was noted.
    pub fn fault(&self) -> Option<RowFault> {
        self.fault
    }

    /// The answer as a line without its end, or why there is none.
    pub fn into_text(self) -> Result<String, RowFault> {
        match self.fault {
            None => Ok(self.text),
            Some(fault) => Err(fault),
        }
    }

    /// Notes why there is no answer.
    pub fn note(&mut self, fault: RowFault) {
        if self.fault.is_none() {
            self.fault = Some(fault);
        }
    }

    /// The call may not be made now.
    pub fn refuse(&mut self) {
        self.note(RowFault::Outside);
    }

    /// Memory was wanted.
    pub fn want_memory(&mut self) {
        self.note(RowFault::NoMemory);
    }

    /// Appends to the last word.
    pub fn push(&mut self, text: &str) {
        if self.text.push_str(text).is_err() {
            self.want_memory();
        }
    }

    /// Appends a number to the last word.
    pub fn push_number(&mut self, number: u64) {
        if write!(self.text, "{number}").is_err() {
            self.want_memory();
        }
    }

    /// Appends a letter to the last word.
    pub fn push_char(&mut self, letter: char) {
        if self.text.push(letter).is_err() {
            self.want_memory();
        }
    }

    /// Appends the two hexadecimal digits of a byte to the last word.
    pub fn push_digits(&mut self, byte: u8) {
        if write!(self.text, "{byte:02x}").is_err() {
            self.want_memory();
        }
    }

    /// Another word.
    pub fn word(&mut self, word: &str) {
        if !self.text.is_empty() {
            self.push(" ");
        }
        self.push(word);
    }

    /// A number.
    pub fn number(&mut self, number: u64) {
        self.word("");
        self.push_number(number);
    }

    /// A number below 2^32.
    pub fn number32(&mut self, number: u32) {
        self.number(u64::from(number));
    }

    /// `1` where it holds, and `0` else.
    pub fn flag(&mut self, holds: bool) {
        self.number(u64::from(holds));
    }

    /// Bytes in hexadecimal digits; `-` is none.
    pub fn bytes(&mut self, bytes: &[u8]) {
        if bytes.is_empty() {
            return self.word("-");
        }
        match hex::encode(self.alloc, bytes) {
            Ok(digits) => self.word(digits.as_str()),
            Err(_) => self.want_memory(),
        }
    }

    /// A value as `Debug` prints it.
    pub fn debug<T: fmt::Debug>(&mut self, value: &T) {
        self.word("");
        if write!(self.text, "{value:?}").is_err() {
            self.want_memory();
        }
    }

    /// Parts a call's answer from the state that follows it.
    pub fn state(&mut self) {
        self.word("|");
    }
}
