//! A data server: `new NUMBER BOOT`, `preset`, which has one file, `preset_after COUNT`, which gave so many ticks,
//! `record FROM HEX` and `silent FROM HEX`, whose entries nobody keeps, and `restart PIECES`, each piece as
//! `FILEID:INDEX:FROM:COUNT` with commas between them, `-` for none. `apply HEX` applies the call of
//! a record, and answers the reply and how many entries it makes. `cut FROM HEX` hands in each proper beginning of a
//! record and answers how many of them were answered with the same bytes as the first that was answered, and these bytes.
//! `room TOTAL TICKS SIZE AT COUNT` is why a WRITE is refused for want of room or of ticks.

use crate::apply::put_applied;
use crate::outbox::put_step;
use cluster_model::{NodeId, Outbox, Tick};
use ds_files::{DataServer, RestartFault};
use ds_procedures::size_refusal;
use ff_xdr::NoMemory;
use nfs3_wire::Stat3;
use row_words::{Answer, Part, Words};
use std::alloc::Global;

/// The most ticks of a boot.
const MAX_TICKS: u32 = 999_999_999;

/// The most bytes of all files together.
const MAX_TOTAL: u64 = 268_435_456;

/// A data server.
#[derive(Drop)]
pub struct ServerRows {
    alloc: Global,
    server: Option<DataServer>,
}

impl ServerRows {
    /// None yet; takes no memory.
    pub fn new(alloc: Global) -> ServerRows {
        ServerRows {
            alloc,
            server: None,
        }
    }

    /// A server that was made anew.
    fn keep(&mut self, made: Result<DataServer, NoMemory>, answer: &mut Answer) {
        match made {
            Err(_) => answer.want_memory(),
            Ok(server) => {
                self.server = Some(server);
                answer.word("Ok");
            }
        }
    }

    /// An empty server at a boot.
    fn begin(&mut self, words: &mut Words<'_>, answer: &mut Answer) {
        let number = words.number32();
        let boot = words.number32();
        if boot == 0 {
            return answer.refuse();
        }
        if words.end() {
            self.keep(Ok(DataServer::new(self.alloc, number, boot)), answer);
        }
    }

    /// A server that has one file.
    fn preset(&mut self, words: &mut Words<'_>, answer: &mut Answer) {
        if words.end() {
            self.keep(DataServer::preset(self.alloc), answer);
        }
    }

    /// The same, which gave so many ticks.
    fn preset_after(&mut self, words: &mut Words<'_>, answer: &mut Answer) {
        let count = words.number32();
        if count == 0 || count > MAX_TICKS {
            return answer.refuse();
        }
        if words.end() {
            self.keep(DataServer::preset_after(self.alloc, count), answer);
        }
    }

    /// Makes a call on the server that is there.
    fn on_server(&mut self, name: &str, words: &mut Words<'_>, answer: &mut Answer) {
        match &mut self.server {
            None => answer.refuse(),
            Some(server) => put_call(server, name, words, answer),
        }
    }
}

/// Whether a server was started again.
fn put_restarted(restarted: Result<(), RestartFault>, answer: &mut Answer) {
    match restarted {
        Ok(()) => answer.word("Ok"),
        Err(RestartFault::BootsSpent) => answer.word("BootsSpent"),
        Err(RestartFault::NoMemory) => answer.want_memory(),
    }
}

fn put_restart(server: &mut DataServer, words: &mut Words<'_>, answer: &mut Answer) {
    let pieces = words.pieces();
    if words.end() {
        put_restarted(server.restart(&pieces), answer);
    }
}

fn put_record(server: &mut DataServer, words: &mut Words<'_>, answer: &mut Answer) {
    let from = words.node();
    let record = words.bytes();
    if words.end() {
        let mut out = Outbox::new(answer.alloc());
        let step = server.on_record(from, &record, &mut out);
        put_step(step, &out, answer);
    }
}

/// The same, of a server whose entries nobody keeps.
fn put_silent(server: &mut DataServer, words: &mut Words<'_>, answer: &mut Answer) {
    let from = words.node();
    let record = words.bytes();
    if words.end() {
        let mut out = Outbox::new(answer.alloc());
        let step = server.answer_record(from, &record, &mut out);
        put_step(step, &out, answer);
    }
}

/// What comes of the first bytes of a record.
fn put_beginning(server: &mut DataServer, from: NodeId, record: &[u8], answer: &mut Answer) {
    let mut out = Outbox::new(answer.alloc());
    let step = server.on_record(from, record, &mut out);
    put_step(step, &out, answer);
}

/// How many beginnings of a record were answered with the same bytes as the first that was answered, and these bytes.
#[derive(Drop)]
struct Beginnings {
    first: String,
    count: u64,
}

impl Beginnings {
    /// Notes what came of another one.
    fn add(&mut self, line: &str, answer: &mut Answer) {
        if self.first.is_empty() && line != "-" && self.first.push_str(line).is_err() {
            answer.want_memory();
        }
        if line != "-" && self.first.as_str() == line {
            self.count = self.count.saturating_add(1);
        }
    }
}

/// What comes of the beginnings of a record, each by itself.
fn put_beginnings(server: &mut DataServer, from: NodeId, record: &[u8], answer: &mut Answer) {
    let mut beginnings = Beginnings {
        first: String::new(answer.alloc()),
        count: 0,
    };
    for length in 0..record.len() {
        let mut line = Answer::new(answer.alloc());
        put_beginning(server, from, &record[..length], &mut line);
        match line.into_text() {
            Ok(line) => beginnings.add(line.as_str(), answer),
            Err(fault) => answer.note(fault),
        }
    }
    answer.number(beginnings.count);
    answer.word(beginnings.first.as_str());
}

fn put_cut(server: &mut DataServer, words: &mut Words<'_>, answer: &mut Answer) {
    let from = words.node();
    let record = words.bytes();
    if words.end() {
        put_beginnings(server, from, &record, answer);
    }
}

/// A status, or that there is none.
fn put_status(status: Option<Stat3>, answer: &mut Answer) {
    match status {
        None => answer.word("None"),
        Some(status) => {
            answer.word("Some");
            answer.debug(&status);
        }
    }
}

/// Why a WRITE is refused for want of room or of ticks.
fn put_room(words: &mut Words<'_>, answer: &mut Answer) {
    let total = words.number64();
    let count = words.number32();
    let clock = Tick { boot: 1, count };
    let size = words.number64();
    let at = words.number64();
    let length = words.number64();
    if size > total || total > MAX_TOTAL {
        return answer.refuse();
    }
    if words.end() {
        put_status(size_refusal(total, clock, size, at, length), answer);
    }
}

/// Makes a call on a server.
fn put_call(server: &mut DataServer, name: &str, words: &mut Words<'_>, answer: &mut Answer) {
    match name {
        "record" => put_record(server, words, answer),
        "silent" => put_silent(server, words, answer),
        "apply" => put_applied(server, words, answer),
        "cut" => put_cut(server, words, answer),
        "restart" => put_restart(server, words, answer),
        _ => answer.refuse(),
    }
}

impl Part for ServerRows {
    fn call(&mut self, words: &mut Words<'_>, answer: &mut Answer) {
        match words.word() {
            "room" => put_room(words, answer),
            "new" => self.begin(words, answer),
            "preset" => self.preset(words, answer),
            "preset_after" => self.preset_after(words, answer),
            name => self.on_server(name, words, answer),
        }
    }
}
