//! A read of the metadata server: `start MIRRORS AT COUNT`, `restart MIRRORS`, `next_call XID`, `on_reply XID REPLY`,
//! `on_timeout XID`.

use crate::steps::put_next;
use cluster_model::LeftCause;
use ff_xdr::NoMemory;
use mds_io::{Failure, MdsRead, ReadEnd};
use row_words::{Answer, Part, Words};

/// The read that is under way.
#[derive(Drop)]
pub struct MdsReadRows {
    read: Option<MdsRead>,
}

impl MdsReadRows {
    /// None yet.
    pub fn new() -> MdsReadRows {
        MdsReadRows { read: None }
    }
}

/// Appends why a mirror did not give the bytes.
fn push_cause(cause: LeftCause, answer: &mut Answer) {
    match cause {
        LeftCause::Timeouts => answer.push(":timeouts"),
        LeftCause::Error(status) => {
            answer.push(":error:");
            answer.push_number(u64::from(status));
        }
        LeftCause::Reported | LeftCause::Unsynced => answer.refuse(),
    }
}

/// Appends a mirror that did not give the bytes.
fn push_failure(failure: Failure, answer: &mut Answer) {
    answer.push_mirror_id(failure.id);
    answer.push(":");
    answer.push_number(u64::from(failure.xid));
    push_cause(failure.cause, answer);
}

/// The mirrors that did not give the bytes, with commas between them.
fn put_failures(failures: &[Failure], answer: &mut Answer) {
    answer.word("");
    for (place, failure) in failures.iter().enumerate() {
        if place > 0 {
            answer.push(",");
        }
        push_failure(*failure, answer);
    }
}

/// How the read has ended, if it has.
fn put_end(end: Option<ReadEnd>, answer: &mut Answer) {
    match end {
        None => answer.word("None"),
        Some(ReadEnd::Bytes { eof, bytes }) => {
            answer.word("Some");
            answer.word("Bytes");
            answer.flag(eof);
            answer.bytes(bytes.bytes());
        }
        Some(ReadEnd::AllFailed { failures }) => {
            answer.word("Some");
            answer.word("AllFailed");
            put_failures(failures.as_slice(), answer);
        }
    }
}

/// What an answer came to.
fn put_replied(end: Result<Option<ReadEnd>, NoMemory>, answer: &mut Answer) {
    match end {
        Err(_) => answer.want_memory(),
        Ok(end) => {
            answer.word("Ok");
            put_end(end, answer);
        }
    }
}

/// The answer to a READ.
fn put_reply(read: &mut MdsRead, words: &mut Words<'_>, answer: &mut Answer) {
    let mut bytes = Vec::new(words.alloc());
    let xid = words.number32();
    let reply = words.ds_reply(&mut bytes);
    if words.end() {
        put_replied(read.on_reply(answer.alloc(), xid, &reply), answer);
    }
}

/// The call of a number goes out or times out.
fn put_on_number(read: &mut MdsRead, name: &str, words: &mut Words<'_>, answer: &mut Answer) {
    let xid = words.number32();
    if !words.end() {
        return;
    }
    match name {
        "next_call" => put_next(read.next_call(xid), answer),
        "on_timeout" => put_end(read.on_timeout(xid), answer),
        _ => answer.refuse(),
    }
}

/// It begins anew at these mirrors.
fn put_restart(read: &mut MdsRead, words: &mut Words<'_>, answer: &mut Answer) {
    let live = words.mirrors();
    if live.len() == 0 {
        return answer.refuse();
    }
    if words.end() {
        read.restart(live);
        answer.word("Ok");
    }
}

/// Makes a call on a read.
fn put_call(read: &mut MdsRead, name: &str, words: &mut Words<'_>, answer: &mut Answer) {
    match name {
        "start" => answer.word("Ok"),
        "restart" => put_restart(read, words, answer),
        "on_reply" => put_reply(read, words, answer),
        _ => put_on_number(read, name, words, answer),
    }
}

impl MdsReadRows {
    /// Begins a read.
    fn begin(&mut self, words: &mut Words<'_>, answer: &mut Answer) {
        let live = words.mirrors();
        let at = words.number64();
        let count = words.number32();
        if live.len() == 0 {
            return answer.refuse();
        }
        if words.end() {
            self.read = Some(MdsRead::start(live, at, count));
        }
    }
}

impl Part for MdsReadRows {
    fn call(&mut self, words: &mut Words<'_>, answer: &mut Answer) {
        let name = words.word();
        if name == "start" {
            self.begin(words, answer);
        }
        match &mut self.read {
            None => answer.refuse(),
            Some(read) => put_call(read, name, words, answer),
        }
    }
}
