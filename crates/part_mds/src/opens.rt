//! What clients have open: `new`, `open CLIENT FILE`, `can_open CLIENT FILE`, `open_of CLIENT FILE`, `close CLIENT FILE`,
//! `end CLIENT`, and `is_named_by CLIENT FILE STATEID`, of the open that stands, which is `?` without one. An open is
//! `FILE NUMBER SEQID STATEID`.

use crate::said::{put_stateid, stateid};
use cluster_model::FileId;
use open_state::{Open, OpenFault, Opens};
use row_words::{Answer, Part, Words};

/// What clients have open.
#[derive(Drop)]
pub struct OpensRows {
    opens: Option<Opens>,
}

impl OpensRows {
    /// None yet.
    pub fn new() -> OpensRows {
        OpensRows { opens: None }
    }
}

/// A client and a file.
fn client_and_file(words: &mut Words<'_>) -> (u64, FileId) {
    (words.number64(), FileId(words.number32()))
}

/// An open.
fn put_open(one: Open, answer: &mut Answer) {
    answer.number32(one.file.0);
    answer.number32(one.number);
    answer.number32(one.seqid);
    put_stateid(one.stateid(), answer);
}

/// An open, or that there is none.
fn put_found(found: Option<Open>, answer: &mut Answer) {
    match found {
        None => answer.word("None"),
        Some(one) => put_open(one, answer),
    }
}

/// Whether it holds.
fn put_holds(holds: bool, answer: &mut Answer) {
    answer.word(if holds { "true" } else { "false" });
}

/// What an OPEN came to.
fn put_opened(opened: Result<Open, OpenFault>, answer: &mut Answer) {
    match opened {
        Ok(one) => put_open(one, answer),
        Err(OpenFault::TooMany) => answer.word("TooMany"),
        Err(OpenFault::Spent) => answer.word("Spent"),
        Err(OpenFault::NoMemory(_)) => answer.want_memory(),
    }
}

/// Whether a stateid names the open that stands.
fn put_named(opens: &Opens, words: &mut Words<'_>, answer: &mut Answer) {
    let (client, file) = client_and_file(words);
    let stateid = stateid(words);
    if words.end() {
        match opens.open_of(client, file) {
            None => answer.refuse(),
            Some(one) => put_holds(one.is_named_by(stateid), answer),
        }
    }
}

/// A client is gone.
fn put_end(opens: &mut Opens, words: &mut Words<'_>, answer: &mut Answer) {
    let client = words.number64();
    if words.end() {
        opens.end(client);
        answer.word("Ok");
    }
}

/// Makes a call on what a client has open of a file.
fn put_on_file(opens: &mut Opens, name: &str, words: &mut Words<'_>, answer: &mut Answer) {
    let (client, file) = client_and_file(words);
    if !words.end() {
        return;
    }
    match name {
        "open" => put_opened(opens.open(client, file), answer),
        "can_open" => put_holds(opens.can_open(client, file), answer),
        "open_of" => put_found(opens.open_of(client, file), answer),
        "close" => put_found(opens.close(client, file), answer),
        _ => answer.refuse(),
    }
}

/// Makes a call on what clients have open.
fn put_call(opens: &mut Opens, name: &str, words: &mut Words<'_>, answer: &mut Answer) {
    match name {
        "end" => put_end(opens, words, answer),
        "is_named_by" => put_named(opens, words, answer),
        _ => put_on_file(opens, name, words, answer),
    }
}

impl OpensRows {
    /// Nothing is open.
    fn begin(&mut self, words: &mut Words<'_>, answer: &mut Answer) {
        if words.end() {
            self.opens = Some(Opens::new(words.alloc()));
            answer.word("Ok");
        }
    }
}

impl Part for OpensRows {
    fn call(&mut self, words: &mut Words<'_>, answer: &mut Answer) {
        let name = words.word();
        if name == "new" {
            return self.begin(words, answer);
        }
        match &mut self.opens {
            None => answer.refuse(),
            Some(opens) => put_call(opens, name, words, answer),
        }
    }
}
