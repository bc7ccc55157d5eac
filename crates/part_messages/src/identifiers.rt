//! Identifiers, statuses, users and addresses.

use device_addr::{NetAddr, parse_universal, print_universal};
use ff_layout::user_number;
use ff_xdr::{Out, Wire};
use nfs3_wire::is_built;
use nfs4_types::{
    Refusal4, Stat4, Stateid, device_of, file_handle, file_number, layout_stateid, open_stateid,
};
use row_words::{Answer, Words};

/// A stateid: how often it changed, and which state it is.
fn put_stateid(stateid: Stateid, answer: &mut Answer) {
    answer.number32(stateid.seqid);
    answer.bytes(&stateid.other);
}

/// A number that may be there.
fn put_found(found: Option<u64>, answer: &mut Answer) {
    match found {
        Some(number) => {
            answer.word("Some");
            answer.number(number);
        }
        None => answer.word("None"),
    }
}

/// `layout_stateid FILE UID SEQID`.
pub fn put_layout_stateid(words: &mut Words<'_>, answer: &mut Answer) {
    let file = words.number32();
    let uid = words.number32();
    let seqid = words.number32();
    if words.end() {
        put_stateid(layout_stateid(file, uid, seqid), answer);
    }
}

/// `open_stateid FILE N`.
pub fn put_open_stateid(words: &mut Words<'_>, answer: &mut Answer) {
    let file = words.number32();
    let n = words.number32();
    if words.end() {
        put_stateid(open_stateid(file, n), answer);
    }
}

/// `file_handle N`.
pub fn put_file_handle(words: &mut Words<'_>, answer: &mut Answer) {
    let number = words.number64();
    if words.end() {
        answer.bytes(&file_handle(number));
    }
}

/// `file_number HEX`: the number of which the handle is that of a file.
pub fn put_file_number(words: &mut Words<'_>, answer: &mut Answer) {
    let handle = words.bytes();
    if words.end() {
        put_found(file_number(handle.as_slice()), answer);
    }
}

/// `status N`: the name of the status with this number, its number again, and whether it may stand in a refusal.
fn put_status(status: Option<Stat4>, answer: &mut Answer) {
    match status {
        None => answer.word("None"),
        Some(status) => {
            answer.word("Some");
            answer.debug(&status);
            answer.number32(status.number());
            answer.flag(Refusal4 { status }.fits());
        }
    }
}

/// `user TEXT`: the number of a user or a group.
pub fn put_user(text: &str, answer: &mut Answer) {
    match user_number(text) {
        Some(number) => put_found(Some(u64::from(number)), answer),
        None => put_found(None, answer),
    }
}

/// The text that is printed of an address.
fn put_printed(address: &NetAddr, answer: &mut Answer) {
    let mut out = Out::new(answer.alloc());
    if print_universal(address, &mut out).is_err() {
        answer.want_memory();
    }
    answer.word(str::from_utf8(out.bytes()).unwrap_or("?"));
}

/// An address, and the text that is printed of it.
fn put_address(address: &NetAddr, answer: &mut Answer) {
    let [first, second, third, fourth] = address.host;
    answer.number(u64::from(first));
    for byte in [second, third, fourth] {
        answer.push(".");
        answer.push_number(u64::from(byte));
    }
    answer.number(u64::from(address.port));
    put_printed(address, answer);
}

/// `universal TEXT`: the host and the port of a universal address, and its text again.
pub fn put_universal(text: &str, answer: &mut Answer) {
    match parse_universal(text) {
        Some(address) => {
            answer.word("Some");
            put_address(&address, answer);
        }
        None => answer.word("None"),
    }
}

/// `is_built N`, `device_of N` or `status N`.
pub fn put_on_number(name: &str, words: &mut Words<'_>, answer: &mut Answer) {
    let number = words.number32();
    if !words.end() {
        return;
    }
    match name {
        "is_built" => answer.flag(is_built(number)),
        "device_of" => answer.bytes(&device_of(number).0),
        _ => put_status(Stat4::of_number(number), answer),
    }
}
