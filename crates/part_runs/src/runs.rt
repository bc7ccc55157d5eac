//! Rows of runs of the program.

use crate::arrivals::{put_sent, read_arrivals};
use crate::program::{Ended, Failing, Over, ran};
use crate::text::{put_text, read_text};
use ff_run::run;
use node_link::{MemoryClock, SureLink};
use row_words::{Answer, Part, RowFault, Words};
use rpc_record::{StdSink, SureSink, SureSource};
use std::alloc::Global;
use std::io;
use store_disk::NoDisk;

/// Plays rows of runs, each of which is a run of its own.
#[derive(Drop)]
pub struct RunRows;

impl Failing {
    /// The calls of a stream, by its name.
    fn calls(&mut self, stream: &str) -> Option<&mut Vec<u64>> {
        match stream {
            "source" => Some(&mut self.source),
            "sink" => Some(&mut self.sink),
            "notes" => Some(&mut self.notes),
            "disk" => Some(&mut self.disk),
            "spare" => Some(&mut self.spare),
            "link" => Some(&mut self.link),
            _ => None,
        }
    }

    /// Another call, as `source:2`.
    fn read(&mut self, words: &mut Words<'_>) {
        let stream = words.before(":");
        let number = words.number64();
        match self.calls(stream) {
            None => words.note(RowFault::Outside),
            Some(calls) => {
                if calls.push(number).is_err() {
                    words.note(RowFault::NoMemory);
                }
            }
        }
    }
}

/// The calls that fail, as `source:2,notes:1`; `together` among them says that what comes over the link is there at once; `-` is
/// none.
fn read_failing(words: &mut Words<'_>) -> Failing {
    let mut failing = Failing::none(words.alloc());
    if words.is_none() {
        return failing;
    }
    for text in words.word().split(',') {
        if text == "together" {
            failing.is_at_once = true;
        } else {
            let mut item = Words::of(words.alloc(), text);
            failing.read(&mut item);
            words.behind(item);
        }
    }
    failing
}

/// Another word behind the program's name.
fn push_said(text: &str, said: &mut Vec<String>, words: &mut Words<'_>) {
    match String::from_str(words.alloc(), text) {
        Err(_) => words.note(RowFault::NoMemory),
        Ok(word) => {
            if said.push(word).is_err() {
                words.note(RowFault::NoMemory);
            }
        }
    }
}

/// The words behind the program's name, with commas between them; `''` is a word of no letters, and `-` no words.
fn read_said(words: &mut Words<'_>) -> Vec<String> {
    let mut said = Vec::new(words.alloc());
    if words.is_none() {
        return said;
    }
    for item in words.word().split(',') {
        push_said(if item == "''" { "" } else { item }, &mut said, words);
    }
    said
}

/// The word of a data server.
fn ds_word(words: &mut Words<'_>) -> Vec<String> {
    let mut said = Vec::new(words.alloc());
    push_said("ds", &mut said, words);
    said
}

/// The moments that a clock gives, in seconds, with commas between them; `-` is none.
fn read_moments(words: &mut Words<'_>) -> Vec<u64> {
    let mut moments = Vec::new(words.alloc());
    if words.is_none() {
        return moments;
    }
    for digits in words.word().split(',') {
        if moments.push(words.in64(digits)).is_err() {
            words.note(RowFault::NoMemory);
        }
    }
    moments
}

/// The status and the note.
fn put_end(ended: &Ended, answer: &mut Answer) {
    answer.number(u64::from(ended.status));
    put_text(ended.notes.bytes(), answer);
}

/// What a row says of a run that has ended.
#[derive(Clone, Copy)]
enum Told {
    /// What was printed.
    Printed,
    /// How many calls of the link failed, and what was sent.
    Sent,
    /// How many calls of the link and of both disks failed, the bytes of the disk and of the spare, and what was sent.
    Stored,
    /// How many calls of the link failed, what was written, and what was sent.
    Written,
}

/// What a row says of a run that has ended, behind the status and the note.
fn put_told(told: Told, ended: &Ended, answer: &mut Answer) {
    match told {
        Told::Printed => put_text(ended.sink.bytes(), answer),
        Told::Sent => {
            answer.number(ended.link.faults());
            put_sent(ended.link.sent(), answer);
        }
        Told::Stored => {
            answer.number(ended.link.faults());
            answer.number(ended.disk.faults().saturating_add(ended.spare.faults()));
            answer.bytes(ended.disk.bytes());
            answer.bytes(ended.spare.bytes());
            put_sent(ended.link.sent(), answer);
        }
        Told::Written => {
            answer.number(ended.link.faults());
            put_text(ended.sink.bytes(), answer);
            put_sent(ended.link.sent(), answer);
        }
    }
}

/// Runs the program, where the row was in its form.
fn put_ran(told: Told, over: Over, words: &mut Words<'_>, answer: &mut Answer) {
    if !words.end() {
        return;
    }
    match ran(answer.alloc(), over) {
        Err(_) => answer.want_memory(),
        Ok(ended) => {
            put_end(&ended, answer);
            put_told(told, &ended, answer);
        }
    }
}

/// `run WORDS FAILING TEXT`: the status, the note and what was printed.
fn play_run(words: &mut Words<'_>, answer: &mut Answer) {
    let over = Over {
        said: read_said(words),
        failing: read_failing(words),
        log: Vec::new(words.alloc()),
        moments: Vec::new(words.alloc()),
        arrivals: Vec::new(words.alloc()),
        text: read_text(words),
    };
    put_ran(Told::Printed, over, words, answer);
}

/// `ds FAILING ARRIVALS TEXT`: the status, the note, how many calls of the link failed, and what was sent.
fn play_ds(words: &mut Words<'_>, answer: &mut Answer) {
    let over = Over {
        said: ds_word(words),
        failing: read_failing(words),
        log: Vec::new(words.alloc()),
        moments: Vec::new(words.alloc()),
        arrivals: read_arrivals(words),
        text: read_text(words),
    };
    put_ran(Told::Sent, over, words, answer);
}

/// `store FAILING DISK ARRIVALS TEXT`, where the spare is empty: the status, the note, how many calls of the link and of both
/// disks failed, the bytes of the disk and of the spare, and what was sent.
fn play_store(words: &mut Words<'_>, answer: &mut Answer) {
    let over = Over {
        said: ds_word(words),
        failing: read_failing(words),
        log: words.bytes(),
        moments: Vec::new(words.alloc()),
        arrivals: read_arrivals(words),
        text: read_text(words),
    };
    put_ran(Told::Stored, over, words, answer);
}

/// `node WORDS FAILING MOMENTS ARRIVALS TEXT`: the status, the note, how many calls of the link failed, what was written
/// and what was sent.
fn play_node(words: &mut Words<'_>, answer: &mut Answer) {
    let over = Over {
        said: read_said(words),
        failing: read_failing(words),
        log: Vec::new(words.alloc()),
        moments: read_moments(words),
        arrivals: read_arrivals(words),
        text: read_text(words),
    };
    put_ran(Told::Written, over, words, answer);
}

/// Runs the program with these two words over this source and nothing else.
fn ran_words(alloc: Global, word: &str, operand: &str, text: Vec<u8>) -> Result<Ended, RowFault> {
    let said = vec![in alloc;
        String::from_str(alloc, word)?,
        String::from_str(alloc, operand)?,
    ]?;
    Ok(ran(alloc, Over::source(alloc, said, text))?)
}

/// A replay that counts what the script of this number brings.
fn counted(alloc: Global, number: &str) -> Result<Ended, RowFault> {
    let script = ran_words(alloc, "gen", number, Vec::new(alloc))?;
    let text = script.sink.bytes().to_vec(alloc)?;
    ran_words(alloc, "replay", "count", text)
}

/// `counted N`: the status and the note of such a replay, and what it prints.
fn play_counted(words: &mut Words<'_>, answer: &mut Answer) {
    let number = words.word();
    if !words.end() {
        return;
    }
    match counted(answer.alloc(), number) {
        Err(fault) => answer.note(fault),
        Ok(ended) => {
            put_end(&ended, answer);
            put_told(Told::Printed, &ended, answer);
        }
    }
}

/// A run of the program with these words whose text nobody keeps.
fn put_status(said: &[String], text: Vec<u8>, answer: &mut Answer) {
    let alloc = answer.alloc();
    let mut source = SureSource::new(text);
    let mut sink = StdSink::new(io::sink());
    let mut notes = SureSink::new(alloc);
    let mut link = SureLink::new(alloc, Vec::new(alloc));
    let mut clock = MemoryClock::new(Vec::new(alloc));
    let status = run(
        alloc,
        said,
        &mut source,
        &mut sink,
        &mut notes,
        &mut NoDisk,
        &mut NoDisk,
        &mut link,
        &mut clock,
    );
    answer.number(u64::from(status));
    put_text(notes.bytes(), answer);
}

/// `status WORDS TEXT`: the status and the note of such a run.
fn play_status(words: &mut Words<'_>, answer: &mut Answer) {
    let said = read_said(words);
    let text = read_text(words);
    if words.end() {
        put_status(&said, text, answer);
    }
}

impl Part for RunRows {
    fn call(&mut self, words: &mut Words<'_>, answer: &mut Answer) {
        match words.word() {
            "run" => play_run(words, answer),
            "ds" => play_ds(words, answer),
            "store" => play_store(words, answer),
            "node" => play_node(words, answer),
            "counted" => play_counted(words, answer),
            "status" => play_status(words, answer),
            _ => answer.refuse(),
        }
    }
}
