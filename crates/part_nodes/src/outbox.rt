//! What a step puts out, in one line.

use cluster_model::{Entry, NodeId, Outbox};
use ff_xdr::{Data, NoMemory, Out};
use journal_print::put_entry;
use row_words::{Answer, Words};
use std::str;

/// An entry as the trace prints it, without the line's end.
fn put_line(entry: &Entry, answer: &mut Answer) {
    let mut out = Out::new(answer.alloc());
    if put_entry(entry, &mut out).is_err() {
        answer.want_memory();
    }
    put_printed(out.bytes(), answer);
}

/// A line, without its end.
fn put_printed(printed: &[u8], answer: &mut Answer) {
    match str::from_utf8(printed) {
        Ok(text) => answer.word(text.strip_suffix("\n").unwrap_or(text)),
        Err(_) => answer.refuse(),
    }
}

/// A `/` behind another item.
fn put_between(is_first: bool, answer: &mut Answer) {
    if !is_first {
        answer.word("/");
    }
}

/// Each entry as a line of the trace, then `send NODE HEX` for each record, with ` / ` between them; `-` for nothing.
pub fn put_outbox(out: &Outbox, answer: &mut Answer) {
    if out.entries.is_empty() && out.sends.is_empty() {
        return answer.word("-");
    }
    put_entries(&out.entries, answer);
    put_sends(&out.sends, out.entries.is_empty(), answer);
}

/// Entries.
fn put_entries(entries: &[Entry], answer: &mut Answer) {
    for (place, entry) in entries.iter().enumerate() {
        put_between(place == 0, answer);
        put_line(entry, answer);
    }
}

/// Records, behind entries where there are some.
fn put_sends(sends: &[(NodeId, Data)], is_first: bool, answer: &mut Answer) {
    for (place, (to, bytes)) in sends.iter().enumerate() {
        put_between(is_first && place == 0, answer);
        answer.word("send");
        answer.node(*to);
        answer.bytes(bytes.bytes());
    }
}

/// What comes of a step, where memory was not wanted.
pub fn put_step(step: Result<(), NoMemory>, out: &Outbox, answer: &mut Answer) {
    match step {
        Ok(()) => put_outbox(out, answer),
        Err(_) => answer.want_memory(),
    }
}

/// The entry of an answer to a user, without the client before it.
fn put_behind(line: &str, client: u32, answer: &mut Answer) {
    let mut words = Words::of(answer.alloc(), line);
    let kind = words.word();
    if kind != "answer" || words.node() != NodeId::Client(client) {
        return answer.refuse();
    }
    answer.word(words.rest());
}

/// An answer to a user, as the trace words it behind the client.
pub fn put_user_answer(client: u32, entry: &Entry, answer: &mut Answer) {
    let mut line = Answer::new(answer.alloc());
    put_line(entry, &mut line);
    match line.into_text() {
        Ok(line) => put_behind(line.as_str(), client, answer),
        Err(fault) => answer.note(fault),
    }
}
