//! A writer: `open MIRRORS CRED`, `write AT HEX`, `commit`, `next_call XID`, `on_reply XID REPLY`, `on_timeout XID`,
//! `taken N`, `covered N ID`, and `write_numbered N`, `covered_everywhere N`, `count`, `has_no_mirror`, `call_to SERVER`, the
//! call that is outstanding at the mirror there and its number. Behind each answer stand its report, whether all are committed and whether the rest are, and
//! for each mirror a digit for each write that was taken: whether it is covered there.

use crate::steps::{put_next, put_writer_step};
use cluster_model::{MAX_FILE, MirrorId, Mirrors, PIECE_SIZE};
use mirror_writer::{WriteBytes, WriteStart, Writer};
use row_words::{Answer, Part, Words};

/// A writer that is open, the mirrors that it was opened with, and how many writes it took.
#[derive(Drop)]
struct OpenWriter {
    writer: Writer,
    mirrors: Mirrors,
    writes: u32,
}

/// A writer.
#[derive(Drop)]
pub struct WriterRows {
    open: Option<OpenWriter>,
}

impl WriterRows {
    /// None yet.
    pub fn new() -> WriterRows {
        WriterRows { open: None }
    }
}

/// The answer to a call.
fn put_reply(writer: &mut Writer, words: &mut Words<'_>, answer: &mut Answer) {
    let mut bytes = Vec::new(words.alloc());
    let xid = words.number32();
    let reply = words.ds_reply(&mut bytes);
    if words.end() {
        put_writer_step(writer.on_reply(xid, &reply), answer);
    }
}

impl OpenWriter {
    /// Whether a write of the user was taken.
    fn put_start(&mut self, start: WriteStart, answer: &mut Answer) {
        match start {
            WriteStart::Taken => {
                self.writes = self.writes.saturating_add(1);
                answer.word("Taken");
            }
            WriteStart::Overlap => answer.word("Overlap"),
            WriteStart::NoMemory => answer.want_memory(),
        }
    }

    /// A write of the user, where it has some bytes and not too many, all of them of a file.
    fn put_write(&mut self, at: u64, bytes: &[u8], answer: &mut Answer) {
        let count = bytes.len() as u64;
        if count == 0 || count > u64::from(PIECE_SIZE) || at > MAX_FILE - count {
            return answer.refuse();
        }
        match WriteBytes::of(answer.alloc(), bytes) {
            Ok(bytes) => {
                let start = self.writer.write(at, &bytes);
                self.put_start(start, answer);
            }
            Err(_) => answer.want_memory(),
        }
    }
}

/// A write of the user.
fn put_write(open: &mut OpenWriter, words: &mut Words<'_>, answer: &mut Answer) {
    let at = words.number64();
    let bytes = words.bytes();
    if words.end() {
        open.put_write(at, &bytes, answer);
    }
}

/// A write that was taken.
fn put_taken(taken: Option<(u64, &[u8])>, answer: &mut Answer) {
    match taken {
        None => answer.word("None"),
        Some((at, bytes)) => {
            answer.word("Some");
            answer.number(at);
            answer.bytes(bytes);
        }
    }
}

/// A write that was taken, lent as its own type.
fn put_numbered(taken: Option<(u64, &WriteBytes)>, answer: &mut Answer) {
    match taken {
        None => put_taken(None, answer),
        Some((at, bytes)) => put_taken(Some((at, bytes.bytes())), answer),
    }
}

/// The call that is outstanding at the mirror on a data server.
fn put_outstanding(writer: &Writer, server: u32, answer: &mut Answer) {
    match writer.call_to(server) {
        None => answer.word("None"),
        Some((xid, call)) => {
            answer.word("Some");
            answer.number32(xid);
            answer.ds_call(&call);
        }
    }
}

/// Whether a write is covered at a mirror.
fn put_is_covered(writer: &Writer, words: &mut Words<'_>, answer: &mut Answer) {
    let number = words.number32();
    let id = words.mirror_id();
    if words.end() {
        answer.flag(writer.covered(number, id));
    }
}

/// Asks a writer, which stays as it is, by a number.
fn put_asked_by(writer: &Writer, name: &str, number: u32, answer: &mut Answer) {
    match name {
        "taken" => put_taken(writer.taken(number), answer),
        "write_numbered" => put_numbered(writer.write_numbered(number as usize), answer),
        "covered_everywhere" => answer.flag(writer.covered_everywhere(number as usize)),
        "call_to" => put_outstanding(writer, number, answer),
        _ => answer.refuse(),
    }
}

/// The call of a number goes out or times out, or a writer is asked by it.
fn put_on_number(writer: &mut Writer, name: &str, words: &mut Words<'_>, answer: &mut Answer) {
    let number = words.number32();
    if !words.end() {
        return;
    }
    match name {
        "next_call" => put_next(writer.next_call(number), answer),
        "on_timeout" => put_writer_step(writer.on_timeout(number), answer),
        _ => put_asked_by(writer, name, number, answer),
    }
}

/// Makes a call that says nothing more.
fn put_alone(writer: &mut Writer, name: &str, answer: &mut Answer) {
    match name {
        "commit" => {
            writer.commit();
            answer.word("Ok");
        }
        "count" => answer.number(writer.count() as u64),
        "has_no_mirror" => answer.flag(writer.has_no_mirror()),
        _ => answer.refuse(),
    }
}

/// Makes a call on a writer.
fn put_call(open: &mut OpenWriter, name: &str, words: &mut Words<'_>, answer: &mut Answer) {
    if words.is_empty() {
        return put_alone(&mut open.writer, name, answer);
    }
    match name {
        "write" => put_write(open, words, answer),
        "on_reply" => put_reply(&mut open.writer, words, answer),
        "covered" => put_is_covered(&open.writer, words, answer),
        _ => put_on_number(&mut open.writer, name, words, answer),
    }
}

/// At which mirrors which writes are covered.
fn put_covered(open: &OpenWriter, answer: &mut Answer) {
    for place in 0..open.mirrors.len() {
        if let Some(mirror) = open.mirrors.get(place) {
            put_covered_at(open, mirror.id, answer);
        }
    }
}

/// Which writes are covered at a mirror.
fn put_covered_at(open: &OpenWriter, id: MirrorId, answer: &mut Answer) {
    answer.word(if open.writes == 0 { "-" } else { "" });
    for number in 0..open.writes {
        answer.push_number(u64::from(open.writer.covered(number, id)));
    }
}

/// What is seen of a writer.
fn put_state(open: &OpenWriter, answer: &mut Answer) {
    answer.state();
    answer.places(&open.writer.report());
    answer.flag(open.writer.all_committed());
    answer.flag(open.writer.rest_committed());
    put_covered(open, answer);
}

impl WriterRows {
    /// Opens a writer.
    fn begin(&mut self, words: &mut Words<'_>, answer: &mut Answer) {
        let mirrors = words.mirrors();
        let cred = words.cred();
        if mirrors.len() == 0 {
            return answer.refuse();
        }
        if !words.end() {
            return;
        }
        match Writer::open(words.alloc(), mirrors, cred) {
            Err(_) => answer.want_memory(),
            Ok(writer) => {
                self.open = Some(OpenWriter {
                    writer,
                    mirrors,
                    writes: 0,
                });
                answer.word("Ok");
            }
        }
    }
}

impl Part for WriterRows {
    fn call(&mut self, words: &mut Words<'_>, answer: &mut Answer) {
        let name = words.word();
        let is_opened = name == "open";
        if is_opened {
            self.begin(words, answer);
        }
        match &mut self.open {
            None => answer.refuse(),
            Some(open) => {
                if !is_opened {
                    put_call(open, name, words, answer);
                }
                put_state(open, answer);
            }
        }
    }
}
