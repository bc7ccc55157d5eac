//! The metadata server's operations, each told what it finds: `put_fh HEX FILES`, `current OBJECT`, `lookup OBJECT NAME FOUND`,
//! `open OBJECT NAME ACCESS HOW FOUND OPENS MAKES`, `close OBJECT NAMED`, `read OBJECT NAMED COUNT KEPT PHASE`,
//! `write OBJECT NAMED OFFSET LENGTH PHASE UIDS`, `commit OBJECT`, `getattr OBJECT CHANGE SIZE WORD WORD`, `state_named STATEID FILE NUMBER UID`, and those on
//! layouts and devices. An OBJECT is `-`, `root` or a file.

use crate::layouts::put_layout_call;
use crate::said::{
    current, file, named, put_file, put_named, put_object, put_refusal, stateid, uid,
};
use cluster_model::FileId;
use ff_xdr::Out;
use mds_refusals::{
    AskedAttributes, Attributes, Creation, OpenFound, OpenStep, ReadAsk, WriteAsk, current_object,
    state_named, try_close, try_commit, try_lookup, try_open, try_put_fh, try_read, try_write,
};
use nfs4_types::Stat4;
use row_words::{Answer, Part, Words};

/// Operations, each by itself.
#[derive(Drop)]
pub struct OperationRows;

/// Whether an OPEN makes its file.
fn creation(words: &mut Words<'_>) -> Creation {
    match words.word() {
        "nocreate" => Creation::NoCreate,
        "unchecked" => Creation::Unchecked,
        "guarded" => Creation::Guarded,
        _ => words.outside(Creation::NoCreate),
    }
}

/// LOOKUP.
fn put_lookup(words: &mut Words<'_>, answer: &mut Answer) {
    let at = current(words);
    let name = words.bytes();
    let found = file(words);
    if words.end() {
        put_file(try_lookup(at, name.as_slice(), found), answer);
    }
}

/// What an OPEN comes to.
fn put_opened(step: Result<OpenStep, Stat4>, answer: &mut Answer) {
    match step {
        Ok(OpenStep::Opens(file)) => {
            answer.word("Opens");
            answer.number32(file.0);
        }
        Ok(OpenStep::Makes) => answer.word("Makes"),
        Err(status) => put_refusal(status, answer),
    }
}

/// OPEN.
fn put_open(words: &mut Words<'_>, answer: &mut Answer) {
    let at = current(words);
    let name = words.bytes();
    let share_access = words.number32();
    let how = creation(words);
    let found = OpenFound {
        file: file(words),
        can_open: words.flag(),
        can_make: words.flag(),
    };
    if words.end() {
        put_opened(
            try_open(at, name.as_slice(), share_access, how, found),
            answer,
        );
    }
}

/// How many bytes a read keeps.
fn kept(words: &mut Words<'_>) -> Option<usize> {
    match words.option32() {
        None => None,
        Some(n) => Some(n as usize),
    }
}

/// READ.
fn put_read(words: &mut Words<'_>, answer: &mut Answer) {
    let at = current(words);
    let ask = ReadAsk {
        named: named(words),
        count: words.number32(),
        kept: kept(words),
        phase: words.phase(),
    };
    if words.end() {
        put_file(try_read(at, ask), answer);
    }
}

/// WRITE.
fn put_write(words: &mut Words<'_>, answer: &mut Answer) {
    let at = current(words);
    let ask = WriteAsk {
        named: named(words),
        offset: words.number64(),
        length: words.number32() as usize,
        phase: words.phase(),
        uids_left: words.number32(),
    };
    if words.end() {
        put_file(try_write(at, ask), answer);
    }
}

/// What a stateid names.
fn put_state_named(words: &mut Words<'_>, answer: &mut Answer) {
    let stateid = stateid(words);
    let file = FileId(words.number32());
    let number = words.option32();
    let granted = uid(words);
    if words.end() {
        put_named(state_named(stateid, file, number, granted), answer);
    }
}

/// PUTFH.
fn put_put_fh(words: &mut Words<'_>, answer: &mut Answer) {
    let handle = words.bytes();
    let files = words.number32();
    if words.end() {
        put_object(try_put_fh(handle.as_slice(), files), answer);
    }
}

/// CLOSE.
fn put_close(words: &mut Words<'_>, answer: &mut Answer) {
    let at = current(words);
    let named = named(words);
    if words.end() {
        put_file(try_close(at, named), answer);
    }
}

/// The words of the bitmap, and the values.
fn put_values(asked: AskedAttributes, values: Attributes, answer: &mut Answer) {
    let mut out = Out::new(answer.alloc());
    if asked.put(values, &mut out).is_err() {
        answer.want_memory();
    }
    answer.number32(asked.first_word());
    answer.number32(asked.second_word());
    answer.bytes(out.bytes());
}

/// GETATTR.
fn put_getattr(words: &mut Words<'_>, answer: &mut Answer) {
    let Some(object) = current(words) else {
        return answer.refuse();
    };
    let values = Attributes {
        object,
        change: words.number64(),
        size: words.number64(),
    };
    let first = words.number32();
    let second = words.number32();
    if words.end() {
        put_values(AskedAttributes::of(first, second), values, answer);
    }
}

/// The object of the current filehandle.
fn put_current(words: &mut Words<'_>, answer: &mut Answer) {
    let at = current(words);
    if words.end() {
        put_object(current_object(at), answer);
    }
}

/// COMMIT.
fn put_commit(words: &mut Words<'_>, answer: &mut Answer) {
    let at = current(words);
    if words.end() {
        put_file(try_commit(at), answer);
    }
}

impl Part for OperationRows {
    fn call(&mut self, words: &mut Words<'_>, answer: &mut Answer) {
        match words.word() {
            "put_fh" => put_put_fh(words, answer),
            "lookup" => put_lookup(words, answer),
            "open" => put_open(words, answer),
            "close" => put_close(words, answer),
            "read" => put_read(words, answer),
            "write" => put_write(words, answer),
            "state_named" => put_state_named(words, answer),
            "getattr" => put_getattr(words, answer),
            "current" => put_current(words, answer),
            "commit" => put_commit(words, answer),
            name => put_layout_call(name, words, answer),
        }
    }
}
