//! What an operation is told, and what it answers, in words.

use cluster_model::{Cred, FileId};
use mds_refusals::{Named, Object};
use nfs4_types::{Stat4, Stateid};
use row_words::{Answer, Words};

/// The current filehandle's object: `-`, `root` or a file.
pub fn current(words: &mut Words<'_>) -> Option<Object> {
    match words.word() {
        "-" => None,
        "root" => Some(Object::Root),
        digits => Some(Object::File(FileId(words.in32(digits)))),
    }
}

/// A file, or `-`.
pub fn file(words: &mut Words<'_>) -> Option<FileId> {
    match words.option32() {
        None => None,
        Some(n) => Some(FileId(n)),
    }
}

/// What a stateid names.
pub fn named(words: &mut Words<'_>) -> Named {
    match words.word() {
        "open" => Named::Open,
        "layout" => Named::Layout,
        "anonymous" => Named::Anonymous,
        "bypass" => Named::Bypass,
        "nothing" => Named::Nothing,
        _ => words.outside(Named::Nothing),
    }
}

/// A stateid, as 32 digits, those of its seqid first.
pub fn stateid(words: &mut Words<'_>) -> Stateid {
    let bytes = words.sized::<16>();
    let mut seqid = [0; 4];
    seqid[..].copy_from_slice(&bytes[..4]);
    let mut other = [0; 12];
    other[..].copy_from_slice(&bytes[4..]);
    Stateid {
        seqid: u32::from_be_bytes(seqid),
        other,
    }
}

/// The same in an answer.
pub fn put_stateid(stateid: Stateid, answer: &mut Answer) {
    let mut bytes = [0; 16];
    bytes[..4].copy_from_slice(&stateid.seqid.to_be_bytes());
    bytes[4..].copy_from_slice(&stateid.other);
    answer.bytes(&bytes);
}

/// A uid, or `-`.
pub fn uid(words: &mut Words<'_>) -> Option<Cred> {
    match words.option32() {
        None => None,
        Some(n) => Some(Cred(n)),
    }
}

/// That an operation is refused.
pub fn put_refusal(status: Stat4, answer: &mut Answer) {
    answer.word("Refused");
    answer.number32(status.number());
}

/// The file that an operation is done to.
pub fn put_file(taken: Result<FileId, Stat4>, answer: &mut Answer) {
    match taken {
        Ok(file) => answer.number32(file.0),
        Err(status) => put_refusal(status, answer),
    }
}

/// The object that an operation is done to.
pub fn put_object(taken: Result<Object, Stat4>, answer: &mut Answer) {
    match taken {
        Ok(Object::Root) => answer.word("root"),
        Ok(Object::File(file)) => answer.number32(file.0),
        Err(status) => put_refusal(status, answer),
    }
}

/// What a stateid names.
pub fn put_named(named: Named, answer: &mut Answer) {
    match named {
        Named::Open => answer.word("open"),
        Named::Layout => answer.word("layout"),
        Named::Anonymous => answer.word("anonymous"),
        Named::Bypass => answer.word("bypass"),
        Named::Nothing => answer.word("nothing"),
    }
}
