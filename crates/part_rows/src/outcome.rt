//! How the rows of a file came out.

use row_words::{Part, RowFault, put_answer};
use std::alloc::Global;

/// What was played of a file, and a text of the rows that differ. It notes the first reason why a row was not played.
#[derive(Drop)]
pub struct Outcome<'a> {
    alloc: Global,
    file: &'a str,
    rows: u64,
    differ: u64,
    text: String,
    fault: Option<RowFault>,
}

impl<'a> Outcome<'a> {
    /// Nothing was played yet of the file of this name; takes no memory.
    pub fn new(alloc: Global, file: &'a str) -> Outcome<'a> {
        Outcome {
            alloc,
            file,
            rows: 0,
            differ: 0,
            text: String::new(alloc),
            fault: None,
        }
    }

    /// Every row came as it is wanted.
    pub fn is_good(&self) -> bool {
        self.differ == 0
    }

    /// Notes why a row was not played.
    pub fn note(&mut self, fault: RowFault) {
        if self.fault.is_none() {
            self.fault = Some(fault);
        }
    }

    /// Notes that a row differs.
    fn differs(&mut self, line: usize, call: &str, wanted: &str, came: &str) {
        self.differ = self.differ.saturating_add(1);
        let file = self.file;
        let noted = write!(
            self.text,
            "{file}:{line}: {call}\n  wanted {wanted}\n  came   {came}\n"
        );
        if noted.is_err() {
            self.note(RowFault::NoMemory);
        }
    }

    /// Holds what came of the row of a line against what is wanted.
    pub fn compare(&mut self, line: usize, call: &str, wanted: &str, came: &str) {
        self.rows = self.rows.saturating_add(1);
        if wanted != came {
            self.differs(line, call, wanted, came);
        }
    }

    /// Plays the row of a line.
    pub fn play<P: Part>(&mut self, part: &mut P, line: usize, call: &str, wanted: &str) {
        match put_answer(self.alloc, part, call) {
            Ok(came) => self.compare(line, call, wanted, came.as_str()),
            Err(fault) => self.note(fault),
        }
    }

    /// The rows that differ, and then how many there are and how many differ.
    pub fn report(self) -> Result<String, RowFault> {
        let Outcome {
            file,
            rows,
            differ,
            mut text,
            fault,
            ..
        } = self;
        if let Some(fault) = fault {
            return Err(fault);
        }
        match write!(text, "{file}: {rows} rows, {differ} differ") {
            Ok(()) => Ok(text),
            Err(_) => Err(RowFault::NoMemory),
        }
    }
}
