//! A log in two files, on the disks that `disks` says; `stop CALLS` has every call of a disk fail behind so many more of its own. `open` opens
//! the log that they have: `Ok`, `Disk`, or `BadLog` and the byte. Then `generation`, `body`, the next one, `place` and `length`;
//! `append HEX`; and `begin`, `put HEX`, `end`, or all of a renewal by `renew HEX ..`: `Ok`, `Disk`, `Broken`. `close` gives the disks
//! back; `log` opens, reads and closes: `Ok`, the generation, how many bodies there are, and these.

use crate::calls::{
    Log, put_append, put_begin, put_body, put_end, put_generation, put_log, put_number, put_put,
    put_renew,
};
use crate::disks::{Disks, DisksAtHand};
use row_words::{Answer, Part, Words};
use std::alloc::Global;
use store_disk::MemoryDisk;
use twin_log::{GateLog, LogFault};

/// A log or, where it is closed, its disks.
#[derive(Drop)]
pub struct GateLogRows {
    alloc: Global,
    disks: DisksAtHand,
    log: Option<Log>,
}

impl GateLogRows {
    /// None yet; takes no memory.
    pub fn new(alloc: Global) -> GateLogRows {
        GateLogRows {
            alloc,
            disks: DisksAtHand::new(alloc),
            log: None,
        }
    }

    /// Disks whose log was not opened, and why.
    fn give_back(&mut self, fault: LogFault<MemoryDisk>, answer: &mut Answer) {
        match fault {
            LogFault::Disk(disk, spare) => {
                self.disks.keep(disk, spare);
                answer.word("Disk");
            }
            LogFault::BadLog { disk, spare, place } => {
                self.disks.keep(disk, spare);
                answer.word("BadLog");
                answer.number(place);
            }
            LogFault::NoMemory(disk, spare) => {
                self.disks.keep(disk, spare);
                answer.want_memory();
            }
        }
    }

    /// The log of the disks, which is opened; `None` where it is not, which is answered.
    fn opened(&mut self, answer: &mut Answer) -> Option<Log> {
        let Some(disks) = self.disks.take() else {
            answer.refuse();
            return None;
        };
        let (disk, spare) = disks.into_pair();
        match GateLog::open(self.alloc, disk, spare) {
            Ok(log) => Some(log),
            Err(fault) => {
                self.give_back(fault, answer);
                None
            }
        }
    }

    /// Opens the log.
    fn open(&mut self, words: &mut Words<'_>, answer: &mut Answer) {
        if !words.end() {
            return;
        }
        if let Some(log) = self.opened(answer) {
            self.log = Some(log);
            answer.word("Ok");
        }
    }

    /// Keeps the disks of a log.
    fn keep_disks(&mut self, log: Log) {
        let (disk, spare) = log.close();
        self.disks.keep(disk, spare);
    }

    /// What the log of the disks says.
    fn put_log(&mut self, words: &mut Words<'_>, answer: &mut Answer) {
        if !words.end() {
            return;
        }
        if let Some(log) = self.opened(answer) {
            let mut log = log;
            put_log(&mut log, answer);
            self.keep_disks(log);
        }
    }

    /// Closes the log.
    fn close(&mut self, words: &mut Words<'_>, answer: &mut Answer) {
        if !words.end() {
            return;
        }
        match self.log.take() {
            Some(log) => {
                self.keep_disks(log);
                answer.word("Ok");
            }
            None => answer.refuse(),
        }
    }

    /// Stops the disks of a log, of which no call failed yet.
    fn stop_log(&mut self, log: Log, calls: u64, answer: &mut Answer) {
        if log.spent().is_some() {
            self.log = Some(log);
            return answer.refuse();
        }
        let (kept, disk, spare) = log.into_parts();
        let mut disks = Disks::of(disk, spare);
        disks.stop_after(calls);
        let (disk, spare) = disks.into_pair();
        self.log = Some(GateLog::from_parts(self.alloc, kept, disk, spare));
        answer.word("Ok");
    }

    /// Every call of a disk fails behind so many more of its own.
    fn stop(&mut self, words: &mut Words<'_>, answer: &mut Answer) {
        let calls = words.number64();
        if !words.end() {
            return;
        }
        match self.log.take() {
            Some(log) => self.stop_log(log, calls, answer),
            None => self.disks.stop_by(calls, answer),
        }
    }

    /// A call on the log that is open.
    fn on_log(&mut self, name: &str, words: &mut Words<'_>, answer: &mut Answer) {
        let Some(log) = &mut self.log else {
            return answer.refuse();
        };
        match name {
            "generation" => put_generation(log, words, answer),
            "body" => put_body(log, words, answer),
            "place" => put_number(log.place(), words, answer),
            "length" => put_number(log.length(), words, answer),
            "append" => put_append(log, words, answer),
            "begin" => put_begin(log, words, answer),
            "put" => put_put(log, words, answer),
            "end" => put_end(log, words, answer),
            "renew" => put_renew(log, words, answer),
            _ => answer.refuse(),
        }
    }
}

impl GateLogRows {
    /// New disks, or a call on those that are at hand. New ones come in place of a log that is open.
    fn on_disks(&mut self, name: &str, words: &mut Words<'_>, answer: &mut Answer) {
        self.log = None;
        self.disks.call(name, words, answer);
    }
}

impl Part for GateLogRows {
    fn call(&mut self, words: &mut Words<'_>, answer: &mut Answer) {
        let name = words.word();
        match name {
            "open" => self.open(words, answer),
            "log" => self.put_log(words, answer),
            "close" => self.close(words, answer),
            "stop" => self.stop(words, answer),
            "disks" | "failing" => self.on_disks(name, words, answer),
            "crash" | "bytes" | "lengths" => self.disks.call(name, words, answer),
            _ => self.on_log(name, words, answer),
        }
    }
}
