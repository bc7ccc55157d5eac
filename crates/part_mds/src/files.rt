//! A file at the metadata server: `new UID NAME MADE SERVERS`, a new file of this first user and this number of names at the
//! servers 1 to MADE of so many; the uid and the number behind these are drawn next. Then `next_call XID`, `out SERVER XID`
//! whether one is outstanding, and what comes to it: `asks CLIENT`, `own_write AT BYTES`, `recall`, `returns CLIENT CRED
//! PLACES`, `revokes CAUSE`, `own_ends PLACE CAUSE AT BYTES`, where PLACE is `-` and no cause follows where it failed
//! nowhere, `resilver`, `reply XID REPLY`, `timeout XID`, `tick`, `sees ID TICK`. The answer to these is the entries, each
//! behind a `;`. Behind each answer stand the phase, the live mirrors, the file's user, the servers to which calls wait, and
//! the call that is kept until the next tick.

use cluster_model::{Cred, Entry, FileId, LeftCause};
use ff_xdr::Out;
use file_rule::Fresh;
use journal_print::put_entry;
use mds_file::{FileInput, MdsFile, has_fresh};
use row_words::{Answer, Part, Words};
use std::alloc::Global;
use std::str;

/// The file, and what is drawn next.
#[derive(Drop)]
pub struct FileRows {
    file: Option<MdsFile>,
    fresh: Fresh,
}

impl FileRows {
    /// None yet.
    pub fn new() -> FileRows {
        let fresh = Fresh {
            uid: 0,
            name: 0,
            servers: 0,
        };
        FileRows { file: None, fresh }
    }
}

/// A new file at the first servers.
fn made(alloc: Global, first: Cred, name: u64, count: u32) -> Option<MdsFile> {
    match count {
        1 => Some(MdsFile::new(alloc, first, name, &[1])),
        2 => Some(MdsFile::new(alloc, first, name, &[1, 2])),
        3 => Some(MdsFile::new(alloc, first, name, &[1, 2, 3])),
        4 => Some(MdsFile::new(alloc, first, name, &[1, 2, 3, 4])),
        _ => None,
    }
}

/// What is drawn behind these.
fn drawn_behind(first: Cred, name: u64, servers: u32) -> Option<Fresh> {
    Some(Fresh {
        uid: first.0.checked_add(1)?,
        name: name.checked_add(1)?,
        servers,
    })
}

/// At which place an own write failed, and why, if it did.
fn causes(words: &mut Words<'_>) -> [Option<LeftCause>; 4] {
    let mut causes = [None; 4];
    let Some(place) = words.option32() else {
        return causes;
    };
    if place > 3 {
        return words.outside(causes);
    }
    causes[place as usize] = Some(words.left_cause());
    causes
}

/// An own write. Its bytes are put into the buffer.
fn read_own_write<'b>(words: &mut Words<'_>, buffer: &'b mut Vec<u8>) -> FileInput<'b> {
    let at = words.number64();
    *buffer = words.bytes();
    FileInput::OwnWrite {
        at,
        bytes: buffer.as_slice(),
    }
}

/// The end of an own write. Its bytes are put into the buffer.
fn read_own_ends<'b>(words: &mut Words<'_>, buffer: &'b mut Vec<u8>) -> FileInput<'b> {
    let causes = causes(words);
    let at = words.number64();
    *buffer = words.bytes();
    FileInput::OwnEnds {
        causes,
        at,
        bytes: buffer.as_slice(),
    }
}

/// The answer to a call. Its bytes are put into the buffer.
fn read_reply<'b>(words: &mut Words<'_>, buffer: &'b mut Vec<u8>) -> FileInput<'b> {
    let xid = words.number32();
    let reply = words.ds_reply(buffer);
    FileInput::Answers { xid, reply }
}

/// What comes to the file but for answers. Its bytes are put into the buffer.
fn read_row<'b>(name: &str, words: &mut Words<'_>, buffer: &'b mut Vec<u8>) -> FileInput<'b> {
    match name {
        "asks" => FileInput::AsksLayout {
            client: words.number32(),
        },
        "own_write" => read_own_write(words, buffer),
        "recall" => FileInput::Recall,
        "returns" => FileInput::Returns {
            client: words.number32(),
            claimed: words.cred(),
            reported: words.places(),
        },
        "revokes" => FileInput::Revokes(words.end_cause()),
        "own_ends" => read_own_ends(words, buffer),
        _ => words.outside(FileInput::Recall),
    }
}

/// Whatever comes to the file. Its bytes are put into the buffer.
fn read_input<'b>(name: &str, words: &mut Words<'_>, buffer: &'b mut Vec<u8>) -> FileInput<'b> {
    match name {
        "resilver" => FileInput::Resilver,
        "reply" => read_reply(words, buffer),
        "timeout" => FileInput::TimesOut(words.number32()),
        "tick" => FileInput::Ticks,
        "sees" => FileInput::Sees {
            id: words.mirror_id(),
            seen: words.tick(),
        },
        _ => read_row(name, words, buffer),
    }
}

/// A line of the trace, behind a `;`.
fn put_printed(printed: &[u8], answer: &mut Answer) {
    let line = str::from_utf8(printed).unwrap_or("");
    match line.strip_suffix("\n") {
        None => answer.refuse(),
        Some(line) => {
            answer.word(";");
            answer.word(line);
        }
    }
}

/// An entry, as a line of the trace.
fn put_line(entry: &Entry, answer: &mut Answer) {
    let mut out = Out::new(answer.alloc());
    match put_entry(entry, &mut out) {
        Ok(()) => put_printed(out.bytes(), answer),
        Err(_) => answer.want_memory(),
    }
}

/// What comes to the file, and the entries of it.
fn put_input(file: &mut MdsFile, fresh: &mut Fresh, input: FileInput<'_>, answer: &mut Answer) {
    let mut entries = Vec::new(answer.alloc());
    if !has_fresh(fresh) {
        return answer.refuse();
    }
    if file.take(FileId(1), input, fresh, &mut entries).is_err() {
        return answer.want_memory();
    }
    answer.word("Ok");
    for entry in &entries {
        put_line(entry, answer);
    }
}

/// What the words say comes to the file.
fn put_taken(
    file: &mut MdsFile,
    fresh: &mut Fresh,
    name: &str,
    words: &mut Words<'_>,
    answer: &mut Answer,
) {
    let mut buffer = Vec::new(words.alloc());
    let input = read_input(name, words, &mut buffer);
    if words.end() {
        put_input(file, fresh, input, answer);
    }
}

/// The next call that goes out.
fn put_next(file: &mut MdsFile, words: &mut Words<'_>, answer: &mut Answer) {
    let xid = words.number32();
    if !words.end() {
        return;
    }
    match file.send_next(xid) {
        None => answer.word("None"),
        Some(call) => {
            answer.word("Some");
            answer.number32(call.server);
            answer.number32(call.uid);
            answer.ds_call(&file.lend(call));
        }
    }
}

/// Whether a call is outstanding.
fn put_out(file: &MdsFile, words: &mut Words<'_>, answer: &mut Answer) {
    let server = words.number32();
    let xid = words.number32();
    if words.end() {
        answer.flag(file.is_outstanding(server, xid));
    }
}

/// Numbers of servers, with commas between them; `-` is none.
fn put_servers(servers: &[u32], answer: &mut Answer) {
    answer.word(if servers.is_empty() { "-" } else { "" });
    for (place, server) in servers.iter().enumerate() {
        if place > 0 {
            answer.push(",");
        }
        answer.push_number(u64::from(*server));
    }
}

/// The call that is kept until the next tick.
fn put_kept(kept: Option<(u32, u32)>, answer: &mut Answer) {
    match kept {
        None => answer.word("-"),
        Some((server, xid)) => {
            answer.number32(server);
            answer.push(":");
            answer.push_number(u64::from(xid));
        }
    }
}

/// What is seen of a file.
fn put_state(file: &MdsFile, answer: &mut Answer) {
    let state = file.state();
    answer.state();
    answer.phase(state.phase());
    answer.mirrors(state.live());
    answer.cred(state.cred());
    put_servers(file.waiting_servers().as_slice(), answer);
    put_kept(file.kept_out(), answer);
}

/// Makes a call on a file.
fn put_call(
    file: &mut MdsFile,
    fresh: &mut Fresh,
    name: &str,
    words: &mut Words<'_>,
    answer: &mut Answer,
) {
    match name {
        "new" => answer.word("Ok"),
        "next_call" => put_next(file, words, answer),
        "out" => put_out(file, words, answer),
        _ => put_taken(file, fresh, name, words, answer),
    }
}

impl FileRows {
    /// A new file.
    fn begin(&mut self, words: &mut Words<'_>, answer: &mut Answer) {
        let first = words.cred();
        let number = words.number64();
        let count = words.number32();
        let Some(fresh) = drawn_behind(first, number, words.number32()) else {
            return answer.refuse();
        };
        if !words.end() {
            return;
        }
        match made(words.alloc(), first, number, count) {
            None => answer.refuse(),
            Some(file) => {
                self.file = Some(file);
                self.fresh = fresh;
            }
        }
    }
}

impl Part for FileRows {
    fn call(&mut self, words: &mut Words<'_>, answer: &mut Answer) {
        let name = words.word();
        if name == "new" {
            self.begin(words, answer);
        }
        match &mut self.file {
            None => answer.refuse(),
            Some(file) => {
                put_call(file, &mut self.fresh, name, words, answer);
                put_state(file, answer);
            }
        }
    }
}
