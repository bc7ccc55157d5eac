//! Operations on layouts and devices: `layout_get OBJECT TYPE IOMODE LENGTH MINLENGTH MAXCOUNT NAMED FAULT SIZE`,
//! `layout_return OBJECT TYPE RECLAIM OFFSET LENGTH BODY NAMED`, `layout_return_all TYPE RECLAIM`, `layout_commit OBJECT NAMED`,
//! `get_device_info TYPE KNOWN MAXCOUNT SIZE`. A FAULT is `-`, `later`, `recalling` or `spent`.

use crate::said::{current, named, put_file, put_refusal};
use cluster_model::Phase;
use layout_state::GrantFault;
use mds_refusals::{
    DeviceInfo, FileReturn, LayoutGetFound, try_get_device_info, try_layout_commit, try_layout_get,
    try_layout_return, try_layout_return_all,
};
use nfs4_file_ops::LayoutGetArgs;
use nfs4_types::{Stat4, Stateid};
use row_words::{Answer, Words};

/// Why a file is not granted.
fn fault(words: &mut Words<'_>) -> Option<GrantFault> {
    match words.word() {
        "-" => None,
        "later" => Some(GrantFault::Later(Phase::Held)),
        "recalling" => Some(GrantFault::Recalling),
        "spent" => Some(GrantFault::Spent),
        _ => words.outside(None),
    }
}

/// LAYOUTGET.
fn put_layout_get(words: &mut Words<'_>, answer: &mut Answer) {
    let at = current(words);
    let args = LayoutGetArgs {
        signal: false,
        layout_type: words.number32(),
        iomode: words.number32(),
        offset: 0,
        length: words.number64(),
        minlength: words.number64(),
        stateid: Stateid {
            seqid: 0,
            other: [0; 12],
        },
        maxcount: words.number32(),
    };
    let found = LayoutGetFound {
        named: named(words),
        fault: fault(words),
        size: words.number32(),
    };
    if words.end() {
        put_file(try_layout_get(at, args, found), answer);
    }
}

/// LAYOUTRETURN of a file.
fn put_layout_return(words: &mut Words<'_>, answer: &mut Answer) {
    let at = current(words);
    let asked = FileReturn {
        layout_type: words.number32(),
        reclaim: words.flag(),
        offset: words.number64(),
        length: words.number64(),
        has_body: words.flag(),
        named: named(words),
    };
    if words.end() {
        put_file(try_layout_return(at, asked), answer);
    }
}

/// Whether an operation that is done to no file is done.
fn put_done(done: Result<(), Stat4>, answer: &mut Answer) {
    match done {
        Ok(()) => answer.word("Ok"),
        Err(status) => put_refusal(status, answer),
    }
}

/// LAYOUTRETURN of all files.
fn put_layout_return_all(words: &mut Words<'_>, answer: &mut Answer) {
    let layout_type = words.number32();
    let reclaim = words.flag();
    if words.end() {
        put_done(try_layout_return_all(layout_type, reclaim), answer);
    }
}

/// LAYOUTCOMMIT.
fn put_layout_commit(words: &mut Words<'_>, answer: &mut Answer) {
    let at = current(words);
    let named = named(words);
    if words.end() {
        put_file(try_layout_commit(at, named), answer);
    }
}

/// What a GETDEVICEINFO is answered with.
fn put_info(info: Result<DeviceInfo, Stat4>, answer: &mut Answer) {
    match info {
        Ok(DeviceInfo::Address) => answer.word("Address"),
        Ok(DeviceInfo::Empty) => answer.word("Empty"),
        Err(status) => put_refusal(status, answer),
    }
}

/// GETDEVICEINFO.
fn put_get_device_info(words: &mut Words<'_>, answer: &mut Answer) {
    let layout_type = words.number32();
    let is_known = words.flag();
    let maxcount = words.number32();
    let size = words.number32();
    if words.end() {
        put_info(
            try_get_device_info(layout_type, is_known, maxcount, size),
            answer,
        );
    }
}

/// Makes the call of this name.
pub fn put_layout_call(name: &str, words: &mut Words<'_>, answer: &mut Answer) {
    match name {
        "layout_get" => put_layout_get(words, answer),
        "layout_return" => put_layout_return(words, answer),
        "layout_return_all" => put_layout_return_all(words, answer),
        "layout_commit" => put_layout_commit(words, answer),
        "get_device_info" => put_get_device_info(words, answer),
        _ => answer.refuse(),
    }
}
