//! One file of a data server: `new OWNER GROUP MODE TICK`, `write TICK AT SYNCED HEX`, `read AT COUNT`, `commit`,
//! `set TICK OWNER GROUP MODE ATIME MTIME`, where `-` stays, and a time is `-`, `now` or a tick, and `restart PIECES`. Behind
//! each answer stand the size, the owner, the group, the mode, and the times of the last access, write and change.

use cluster_model::{Changes, MAX_FILE, NewTime, Piece, Tick};
use data_file::DataFile;
use row_words::{Answer, Part, Words};
use std::alloc::{AllocError, Global};

/// A file.
#[derive(Drop)]
pub struct DataFileRows {
    alloc: Global,
    file: Option<DataFile>,
}

impl DataFileRows {
    /// None yet; takes no memory.
    pub fn new(alloc: Global) -> DataFileRows {
        DataFileRows { alloc, file: None }
    }

    /// A file is made.
    fn begin(&mut self, words: &mut Words<'_>) {
        let owner = words.number32();
        let group = words.number32();
        let mode = words.number32();
        let tick = words.tick();
        if words.end() {
            self.file = Some(DataFile::new(self.alloc, owner, group, mode, tick));
        }
    }
}

/// A write of bytes that a file may have.
fn put_written(
    file: &mut DataFile,
    tick: Tick,
    at: u64,
    synced: bool,
    bytes: &[u8],
    answer: &mut Answer,
) {
    let count = bytes.len() as u64;
    if count > MAX_FILE || at > MAX_FILE - count {
        return answer.refuse();
    }
    match file.write(tick, at, synced, bytes) {
        Ok(()) => answer.word("Ok"),
        Err(_) => answer.want_memory(),
    }
}

fn put_write(file: &mut DataFile, words: &mut Words<'_>, answer: &mut Answer) {
    let tick = words.tick();
    let at = words.number64();
    let synced = words.flag();
    let bytes = words.bytes();
    if words.end() {
        put_written(file, tick, at, synced, &bytes, answer);
    }
}

fn new_time(words: &mut Words<'_>) -> NewTime {
    match words.word() {
        "-" => NewTime::Keep,
        "now" => NewTime::Now,
        "at" => NewTime::At(words.tick()),
        _ => words.outside(NewTime::Keep),
    }
}

fn put_set(file: &mut DataFile, words: &mut Words<'_>, answer: &mut Answer) {
    let tick = words.tick();
    let changes = Changes {
        owner: words.option32(),
        group: words.option32(),
        mode: words.option32(),
        atime: new_time(words),
        mtime: new_time(words),
    };
    if words.end() {
        file.set(tick, &changes);
        answer.word("Ok");
    }
}

/// A restart that these pieces reached the disk before.
fn restart(file: &mut DataFile, pieces: &[Piece]) -> Result<(), AllocError> {
    let mut kept = None;
    for piece in pieces {
        kept = file.keep(piece, kept)?;
    }
    file.restart(kept);
    Ok(())
}

fn put_restart(file: &mut DataFile, words: &mut Words<'_>, answer: &mut Answer) {
    let pieces = words.pieces();
    if !words.end() {
        return;
    }
    match restart(file, &pieces) {
        Ok(()) => answer.word("Ok"),
        Err(_) => answer.want_memory(),
    }
}

fn put_commit(file: &mut DataFile, words: &mut Words<'_>, answer: &mut Answer) {
    if words.end() {
        file.commit();
        answer.word("Ok");
    }
}

fn put_read(alloc: Global, file: &DataFile, words: &mut Words<'_>, answer: &mut Answer) {
    let at = words.number64();
    let count = words.number32();
    if !words.end() {
        return;
    }
    match file.read(at, count).to_data(alloc) {
        Ok(bytes) => answer.bytes(bytes.bytes()),
        Err(_) => answer.want_memory(),
    }
}

/// Makes a call on a file.
fn put_call(
    alloc: Global,
    file: &mut DataFile,
    name: &str,
    words: &mut Words<'_>,
    answer: &mut Answer,
) {
    match name {
        "new" => answer.word("Ok"),
        "write" => put_write(file, words, answer),
        "commit" => put_commit(file, words, answer),
        "set" => put_set(file, words, answer),
        "restart" => put_restart(file, words, answer),
        "read" => put_read(alloc, file, words, answer),
        _ => answer.refuse(),
    }
}

fn put_state(file: &DataFile, answer: &mut Answer) {
    answer.state();
    answer.number(file.size());
    answer.number32(file.owner());
    answer.number32(file.group());
    answer.number32(file.mode());
    let times = file.times();
    answer.tick(times.atime);
    answer.tick(times.mtime);
    answer.tick(times.ctime);
}

impl Part for DataFileRows {
    fn call(&mut self, words: &mut Words<'_>, answer: &mut Answer) {
        let name = words.word();
        if name == "new" {
            self.begin(words);
        }
        let alloc = self.alloc;
        match &mut self.file {
            None => answer.refuse(),
            Some(file) => {
                put_call(alloc, file, name, words, answer);
                put_state(file, answer);
            }
        }
    }
}
