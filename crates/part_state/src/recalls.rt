//! Recalls of layouts: `new`, `ask FILE CRED CLIENT NOW`, `next_call XID`, `on_reply XID STATUS`, `on_timeout XID`,
//! `tick NOW`, `end FILE`.

use cluster_model::{Cred, FileId};
use nfs4_types::Stat4;
use recall::{AskFault, Outcome, Recalls};
use row_words::{Answer, Part, Words};

/// The recalls that are under way.
#[derive(Drop)]
pub struct RecallRows {
    recalls: Option<Recalls>,
}

impl RecallRows {
    /// None yet.
    pub fn new() -> RecallRows {
        RecallRows { recalls: None }
    }
}

/// A file and a uid.
fn put_grant(file: FileId, cred: Cred, answer: &mut Answer) {
    answer.number32(file.0);
    answer.number32(cred.0);
}

/// What an answer or a timeout came to.
fn put_outcome(outcome: Outcome, answer: &mut Answer) {
    match outcome {
        Outcome::Stranger => answer.word("Stranger"),
        Outcome::Waiting => answer.word("Waiting"),
        Outcome::Agreed => answer.word("Agreed"),
        Outcome::NoLayout(file, cred) => {
            answer.word("NoLayout");
            put_grant(file, cred, answer);
        }
        Outcome::Expired(file, cred) => {
            answer.word("Expired");
            put_grant(file, cred, answer);
        }
    }
}

/// Whether a recall begins.
fn put_asked(asked: Result<(), AskFault>, answer: &mut Answer) {
    match asked {
        Ok(()) => answer.word("Ok"),
        Err(AskFault::Asked) => answer.word("Asked"),
        Err(AskFault::NoMemory(_)) => answer.want_memory(),
    }
}

/// A recall begins.
fn put_ask(recalls: &mut Recalls, words: &mut Words<'_>, answer: &mut Answer) {
    let file = FileId(words.number32());
    let cred = words.cred();
    let client = words.number64();
    let now = words.number64();
    if words.end() {
        put_asked(recalls.ask(file, cred, client, now), answer);
    }
}

/// The next callback that goes out.
fn put_next(recalls: &mut Recalls, xid: u32, answer: &mut Answer) {
    match recalls.next_call(xid) {
        None => answer.word("None"),
        Some(call) => {
            answer.word("Some");
            put_grant(call.file, call.cred, answer);
            answer.number(call.client);
            answer.number32(call.xid);
        }
    }
}

/// The answer to a callback.
fn put_reply(recalls: &mut Recalls, words: &mut Words<'_>, answer: &mut Answer) {
    let xid = words.number32();
    let Some(status) = Stat4::of_number(words.number32()) else {
        return answer.refuse();
    };
    if words.end() {
        put_outcome(recalls.on_reply(xid, status), answer);
    }
}

/// Which recall has expired by a tick.
fn put_expired(expired: Option<(FileId, Cred)>, answer: &mut Answer) {
    match expired {
        None => answer.word("None"),
        Some((file, cred)) => {
            answer.word("Some");
            put_grant(file, cred, answer);
        }
    }
}

/// A tick.
fn put_tick(recalls: &mut Recalls, words: &mut Words<'_>, answer: &mut Answer) {
    let now = words.number64();
    if words.end() {
        put_expired(recalls.tick(now), answer);
    }
}

/// The callback of a number goes out or times out, or the recall of a file ends.
fn put_on_number(recalls: &mut Recalls, name: &str, words: &mut Words<'_>, answer: &mut Answer) {
    let number = words.number32();
    if !words.end() {
        return;
    }
    match name {
        "next_call" => put_next(recalls, number, answer),
        "on_timeout" => put_outcome(recalls.on_timeout(number), answer),
        "end" => {
            recalls.end(FileId(number));
            answer.word("Ok");
        }
        _ => answer.refuse(),
    }
}

/// Makes a call on the recalls.
fn put_call(recalls: &mut Recalls, name: &str, words: &mut Words<'_>, answer: &mut Answer) {
    match name {
        "ask" => put_ask(recalls, words, answer),
        "on_reply" => put_reply(recalls, words, answer),
        "tick" => put_tick(recalls, words, answer),
        _ => put_on_number(recalls, name, words, answer),
    }
}

impl RecallRows {
    /// No recall is under way.
    fn begin(&mut self, words: &mut Words<'_>, answer: &mut Answer) {
        if !words.end() {
            return;
        }
        match Recalls::new(words.alloc()) {
            Err(_) => answer.want_memory(),
            Ok(recalls) => {
                self.recalls = Some(recalls);
                answer.word("Ok");
            }
        }
    }
}

impl Part for RecallRows {
    fn call(&mut self, words: &mut Words<'_>, answer: &mut Answer) {
        let name = words.word();
        if name == "new" {
            return self.begin(words, answer);
        }
        match &mut self.recalls {
            None => answer.refuse(),
            Some(recalls) => put_call(recalls, name, words, answer),
        }
    }
}
