//! Results of a compound as they come: `new`, `push HEX`, the bytes of one result, `len`, `size`, `compound STATUS TAG`, and
//! `record XID HEX`, the reply with these results.

use compound_reply::{Results, success_record};
use ff_xdr::{NoMemory, Wire};
use nfs4_compound::{MAX_TAG4, OpRes};
use nfs4_types::Stat4;
use row_words::{Answer, Part, Words};

/// The results of a compound so far.
#[derive(Drop)]
pub struct ResultsRows {
    results: Option<Results>,
}

impl ResultsRows {
    /// None yet.
    pub fn new() -> ResultsRows {
        ResultsRows { results: None }
    }
}

/// One result more, and how many there are then.
fn put_pushed(results: &mut Results, res: &OpRes<'_>, answer: &mut Answer) {
    if !res.fits() || results.len() >= u32::MAX {
        return answer.refuse();
    }
    match results.push(res) {
        Ok(()) => answer.number32(results.len()),
        Err(_) => answer.want_memory(),
    }
}

/// `HEX`: one result more.
fn put_push(results: &mut Results, words: &mut Words<'_>, answer: &mut Answer) {
    let bytes = words.bytes();
    if !words.end() {
        return;
    }
    match OpRes::from_bytes(bytes.as_slice()) {
        Ok(result) => put_pushed(results, &result, answer),
        Err(_) => answer.refuse(),
    }
}

/// Bytes that were made.
fn put_bytes(bytes: Result<Vec<u8>, NoMemory>, answer: &mut Answer) {
    match bytes {
        Ok(bytes) => answer.bytes(&bytes),
        Err(_) => answer.want_memory(),
    }
}

/// `STATUS TAG`: the compound's result; the tag is all that is left of the line.
fn put_compound(results: &Results, words: &mut Words<'_>, answer: &mut Answer) {
    let number = words.number32().to_be_bytes();
    let tag = words.rest();
    let Ok(status) = Stat4::from_bytes(&number) else {
        return answer.refuse();
    };
    if tag.as_bytes().len() > MAX_TAG4 as usize {
        return answer.refuse();
    }
    put_bytes(results.compound(status, tag), answer);
}

/// `XID HEX`: the record.
fn put_record(words: &mut Words<'_>, answer: &mut Answer) {
    let xid = words.number32();
    let results = words.bytes();
    if words.end() {
        put_bytes(
            success_record(answer.alloc(), xid, results.as_slice()),
            answer,
        );
    }
}

/// How many results there are, or bytes of them.
fn put_count(results: &Results, name: &str, words: &mut Words<'_>, answer: &mut Answer) {
    if !words.end() {
        return;
    }
    match name {
        "len" => answer.number32(results.len()),
        "size" => answer.number(results.size() as u64),
        _ => answer.refuse(),
    }
}

/// Makes a call on the results.
fn put_call(results: &mut Results, name: &str, words: &mut Words<'_>, answer: &mut Answer) {
    match name {
        "push" => put_push(results, words, answer),
        "compound" => put_compound(results, words, answer),
        _ => put_count(results, name, words, answer),
    }
}

impl ResultsRows {
    /// No results.
    fn begin(&mut self, words: &mut Words<'_>, answer: &mut Answer) {
        if words.end() {
            self.results = Some(Results::new(words.alloc()));
            answer.word("Ok");
        }
    }

    /// Makes a call on the results that are there.
    fn on_results(&mut self, name: &str, words: &mut Words<'_>, answer: &mut Answer) {
        match &mut self.results {
            None => answer.refuse(),
            Some(results) => put_call(results, name, words, answer),
        }
    }
}

impl Part for ResultsRows {
    fn call(&mut self, words: &mut Words<'_>, answer: &mut Answer) {
        match words.word() {
            "new" => self.begin(words, answer),
            "record" => put_record(words, answer),
            name => self.on_results(name, words, answer),
        }
    }
}
