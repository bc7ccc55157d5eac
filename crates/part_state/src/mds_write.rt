//! A write of the metadata server: `start MIRRORS CRED AT HEX`, `next_call XID`, `on_reply XID REPLY`, `on_timeout XID`.
//! Behind each answer stands whether it has ended, and then which mirrors failed.

use crate::steps::{put_next, put_writer_step};
use cluster_model::{Cred, MAX_FILE, Mirrors, PIECE_SIZE};
use mds_io::MdsWrite;
use mirror_writer::WriteBytes;
use row_words::{Answer, Part, RowFault, Words};
use std::alloc::Global;

/// The write that is under way.
#[derive(Drop)]
pub struct MdsWriteRows {
    write: Option<MdsWrite>,
}

impl MdsWriteRows {
    /// None yet.
    pub fn new() -> MdsWriteRows {
        MdsWriteRows { write: None }
    }
}

/// A write of some bytes and not too many, all of them of a file.
fn made(
    alloc: Global,
    mirrors: Mirrors,
    cred: Cred,
    at: u64,
    bytes: &[u8],
) -> Result<MdsWrite, RowFault> {
    let count = bytes.len() as u64;
    if count == 0 || count > u64::from(PIECE_SIZE) || at > MAX_FILE - count {
        return Err(RowFault::Outside);
    }
    let bytes = WriteBytes::of(alloc, bytes)?;
    Ok(MdsWrite::start(alloc, mirrors, cred, at, &bytes)?)
}

/// The answer to a call.
fn put_reply(write: &mut MdsWrite, words: &mut Words<'_>, answer: &mut Answer) {
    let mut bytes = Vec::new(words.alloc());
    let xid = words.number32();
    let reply = words.ds_reply(&mut bytes);
    if words.end() {
        put_writer_step(write.on_reply(xid, &reply), answer);
    }
}

/// The call of a number goes out or times out.
fn put_on_number(write: &mut MdsWrite, name: &str, words: &mut Words<'_>, answer: &mut Answer) {
    let xid = words.number32();
    if !words.end() {
        return;
    }
    match name {
        "next_call" => put_next(write.next_call(xid), answer),
        "on_timeout" => put_writer_step(write.on_timeout(xid), answer),
        _ => answer.refuse(),
    }
}

/// Makes a call on a write.
fn put_call(write: &mut MdsWrite, name: &str, words: &mut Words<'_>, answer: &mut Answer) {
    match name {
        "start" => answer.word("Ok"),
        "on_reply" => put_reply(write, words, answer),
        _ => put_on_number(write, name, words, answer),
    }
}

/// Whether the write has ended, and which mirrors failed.
fn put_ended(write: &MdsWrite, answer: &mut Answer) {
    match write.ended() {
        None => answer.word("None"),
        Some(reported) => {
            answer.word("Some");
            answer.places(&reported);
        }
    }
}

impl MdsWriteRows {
    /// Begins a write.
    fn begin(&mut self, words: &mut Words<'_>, answer: &mut Answer) {
        let mirrors = words.mirrors();
        let cred = words.cred();
        let at = words.number64();
        let bytes = words.bytes();
        if mirrors.len() == 0 {
            return answer.refuse();
        }
        if !words.end() {
            return;
        }
        match made(words.alloc(), mirrors, cred, at, &bytes) {
            Ok(write) => self.write = Some(write),
            Err(fault) => answer.note(fault),
        }
    }
}

impl Part for MdsWriteRows {
    fn call(&mut self, words: &mut Words<'_>, answer: &mut Answer) {
        let name = words.word();
        if name == "start" {
            self.begin(words, answer);
        }
        match &mut self.write {
            None => answer.refuse(),
            Some(write) => {
                put_call(write, name, words, answer);
                answer.state();
                put_ended(write, answer);
            }
        }
    }
}
