//! The calls of a client to its metadata server, and what their replies come to.

use crate::mds_answers::put_mds_reply;
use crate::mds_asks::mds_ask;
use crate::mds_words::{Lent, mds_call};
use client_mds_calls::{MdsCall, fits, put_mds_call};
use ff_xdr::Out;
use row_words::{Answer, Part, Words};
use rpc_record::Reply;

/// Calls to metadata servers as records, and replies.
#[derive(Drop)]
pub struct MdsCallsRows;

/// `fits OWNER CALL`: the call has a record.
fn put_fits(words: &mut Words<'_>, answer: &mut Answer) {
    let mut lent = Lent::new(answer.alloc());
    let owner = words.bytes();
    let call = mds_call(words, &mut lent);
    if words.end() {
        answer.flag(fits(owner.as_slice(), &call));
    }
}

/// The record of a call.
fn put_record(xid: u32, owner: &[u8], call: &MdsCall<'_>, answer: &mut Answer) {
    if !fits(owner, call) {
        return answer.refuse();
    }
    let alloc = answer.alloc();
    let mut out = Out::new(alloc);
    match put_mds_call(alloc, xid, owner, call, &mut out) {
        Ok(()) => answer.bytes(out.bytes()),
        Err(_) => answer.want_memory(),
    }
}

/// `call XID OWNER CALL`: the record of the call.
fn put_call(words: &mut Words<'_>, answer: &mut Answer) {
    let mut lent = Lent::new(answer.alloc());
    let xid = words.number32();
    let owner = words.bytes();
    let call = mds_call(words, &mut lent);
    if words.end() {
        put_record(xid, owner.as_slice(), &call, answer);
    }
}

/// `reply ASK HEX`: what the record comes to as the reply to what was asked.
fn put_reply(words: &mut Words<'_>, answer: &mut Answer) {
    let ask = mds_ask(words);
    let record = words.bytes();
    if !words.end() {
        return;
    }
    match Reply::read(record.as_slice()) {
        Ok(reply) => put_mds_reply(&ask, &reply, answer),
        Err(_) => answer.refuse(),
    }
}

impl Part for MdsCallsRows {
    fn call(&mut self, words: &mut Words<'_>, answer: &mut Answer) {
        match words.word() {
            "fits" => put_fits(words, answer),
            "call" => put_call(words, answer),
            "reply" => put_reply(words, answer),
            _ => answer.refuse(),
        }
    }
}
