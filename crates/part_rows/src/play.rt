//! Rows and conversations, of a file and of the standard input.

use crate::kinds::{Player, on_kind};
use crate::outcome::Outcome;
use part_runs::{replayed, shown};
use row_talk::{Row, Talk};
use row_words::{Part, RowFault, put_answer};
use std::alloc::Global;
use std::io::{self, BufRead, Read};
use std::str;

/// The row of a line: its call, and the answer that is wanted. A line that says nothing is none.
fn row_of(line: &str) -> Option<(&str, &str)> {
    if line.is_empty() || line.starts_with("#") {
        return None;
    }
    Some(line.split_once(" => ").unwrap_or((line, "a row")))
}

/// The rows of a text, and how they came out.
#[derive(Drop)]
struct TextRows<'a> {
    text: &'a str,
    outcome: Outcome<'a>,
}

impl Player for TextRows<'_> {
    fn play<P: Part>(&mut self, part: &mut P) {
        for (place, line) in self.text.lines().enumerate() {
            if let Some((call, wanted)) = row_of(line) {
                self.outcome
                    .play(part, place.saturating_add(1), call, wanted);
            }
        }
    }
}

/// The rows of conversations, and how they came out.
#[derive(Drop)]
struct TalkRows<'a> {
    rows: Vec<Row>,
    outcome: Outcome<'a>,
}

impl Player for TalkRows<'_> {
    fn play<P: Part>(&mut self, part: &mut P) {
        for row in &self.rows {
            self.outcome
                .play(part, row.line, row.call.as_str(), row.wanted.as_str());
        }
    }
}

/// Plays the rows of the text of a file on a part of a kind.
pub fn play_rows<'a>(alloc: Global, file: &'a str, kind: &str, text: &'a str) -> Outcome<'a> {
    let mut rows = TextRows {
        text,
        outcome: Outcome::new(alloc, file),
    };
    if !on_kind(alloc, kind, &mut rows) {
        rows.outcome.compare(0, kind, "a kind", "none");
    }
    rows.outcome
}

/// Plays rows of conversations on a part of a kind.
fn played_talk<'a>(alloc: Global, file: &'a str, kind: &str, rows: Vec<Row>) -> Outcome<'a> {
    let mut rows = TalkRows {
        rows,
        outcome: Outcome::new(alloc, file),
    };
    if !on_kind(alloc, kind, &mut rows) {
        rows.outcome.compare(1, kind, "a kind", "none");
    }
    rows.outcome
}

/// Plays the conversations of the text of a file.
pub fn play_talk<'a>(alloc: Global, file: &'a str, text: &str) -> Result<Outcome<'a>, RowFault> {
    let talk = Talk::read(alloc, text)?;
    let rows = talk.rows()?;
    Ok(played_talk(alloc, file, talk.kind(), rows))
}

/// Want of memory, which alone can end a row.
pub fn io_fault(_: RowFault) -> io::Error {
    io::Error::from(io::ErrorKind::OutOfMemory)
}

/// Plays a line, and prints the answer; answers whether memory, the input and the output did not fail.
fn is_answered<P: Part>(rt: &HostRuntime, part: &mut P, line: &str) -> bool {
    match put_answer(rt.alloc(), part, line) {
        Ok(came) => println!(rt; "{came}").is_ok(),
        Err(_) => false,
    }
}

/// The standard input, a call a line, and whether it was played to its end.
#[derive(Drop)]
struct InputRows<'a> {
    rt: &'a HostRuntime,
    is_played: bool,
}

impl Player for InputRows<'_> {
    fn play<P: Part>(&mut self, part: &mut P) {
        for line in self.rt.stdin().lines(self.rt.alloc()) {
            let Ok(line) = line else {
                return;
            };
            if !is_answered(self.rt, part, line.as_str()) {
                return;
            }
        }
        self.is_played = true;
    }
}

/// The events of conversations, and whether they were played to their end.
#[derive(Drop)]
struct InputTalk<'a> {
    rt: &'a HostRuntime,
    rows: Vec<Row>,
    is_played: bool,
}

impl Player for InputTalk<'_> {
    fn play<P: Part>(&mut self, part: &mut P) {
        for row in &self.rows {
            if !is_answered(self.rt, part, row.call.as_str()) {
                return;
            }
        }
        self.is_played = true;
    }
}

/// What came of the standard input, played on a part of this kind if there is such a kind.
fn ended(rt: &HostRuntime, kind: &str, is_kind: bool, is_played: bool) -> io::Result<bool> {
    if !is_kind {
        eprintln!(rt; "part_rows: there is no kind '{kind}'")?;
        return Ok(false);
    }
    if !is_played {
        return Err(io_fault(RowFault::NoMemory));
    }
    Ok(true)
}

/// Plays the conversations of the standard input, and prints what comes of each event.
fn play_input_talk(rt: &HostRuntime) -> io::Result<bool> {
    let text = io::read_to_string(rt.alloc(), rt.stdin())?;
    let talk = Talk::read(rt.alloc(), text.as_str()).map_err(io_fault)?;
    let mut input = InputTalk {
        rt,
        rows: talk.rows().map_err(io_fault)?,
        is_played: false,
    };
    let is_kind = on_kind(rt.alloc(), talk.kind(), &mut input);
    ended(rt, talk.kind(), is_kind, input.is_played)
}

/// Plays the standard input on a part of a kind, and prints an answer a line.
fn play_input_rows(rt: &HostRuntime, kind: &str) -> io::Result<bool> {
    let mut input = InputRows {
        rt,
        is_played: false,
    };
    let is_kind = on_kind(rt.alloc(), kind, &mut input);
    ended(rt, kind, is_kind, input.is_played)
}

/// What a command prints of the standard input.
fn printed(alloc: Global, text: &[u8], is_script: bool) -> Result<Vec<u8>, RowFault> {
    if is_script {
        return replayed(alloc, text);
    }
    shown(alloc, text)
}

/// Prints what a command prints of the standard input.
fn play_input_text(rt: &HostRuntime, is_script: bool) -> io::Result<bool> {
    let text = io::read_to_string(rt.alloc(), rt.stdin())?;
    let bytes = printed(rt.alloc(), text.as_bytes(), is_script).map_err(io_fault)?;
    let came = str::from_utf8(&bytes).unwrap_or("?");
    print!(rt; "{came}")?;
    Ok(true)
}

/// Plays the standard input on a part of a kind, and prints an answer a line. Of a script and of records it prints what
/// `replay` and `show` print.
pub fn play_input(rt: &HostRuntime, kind: &str) -> io::Result<bool> {
    match kind {
        "talk" => play_input_talk(rt),
        "replay" => play_input_text(rt, true),
        "show" => play_input_text(rt, false),
        _ => play_input_rows(rt, kind),
    }
}
