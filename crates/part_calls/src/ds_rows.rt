//! The calls of a cluster to its data servers, and what their replies come to.

use cluster_model::{Cred, DsCall};
use ds_calls::{ds_reply_of, fits, put_ds_call};
use ff_xdr::Out;
use row_words::{Answer, Part, Words};
use rpc_record::Reply;

/// Calls to data servers as records, and replies.
#[derive(Drop)]
pub struct DsCallsRows;

/// `fits MACHINE CALL`: the call has a record.
fn put_fits(words: &mut Words<'_>, answer: &mut Answer) {
    let mut data = Vec::new(answer.alloc());
    let machine = words.bytes();
    let call = words.ds_call(&mut data);
    if words.end() {
        answer.flag(fits(machine.as_slice(), &call));
    }
}

/// The record of a call.
fn put_record(xid: u32, machine: &[u8], user: Cred, call: &DsCall<'_>, answer: &mut Answer) {
    if !fits(machine, call) {
        return answer.refuse();
    }
    let mut out = Out::new(answer.alloc());
    match put_ds_call(xid, machine, user, call, &mut out) {
        Ok(()) => answer.bytes(out.bytes()),
        Err(_) => answer.want_memory(),
    }
}

/// `call XID MACHINE CRED CALL`: the record of the call.
fn put_call(words: &mut Words<'_>, answer: &mut Answer) {
    let mut data = Vec::new(answer.alloc());
    let xid = words.number32();
    let machine = words.bytes();
    let user = words.cred();
    let call = words.ds_call(&mut data);
    if words.end() {
        put_record(xid, machine.as_slice(), user, &call, answer);
    }
}

/// What a record comes to as the reply to a call.
fn put_replied(call: &DsCall<'_>, record: &[u8], answer: &mut Answer) {
    match Reply::read(record) {
        Ok(reply) => answer.ds_reply(&ds_reply_of(call, &reply)),
        Err(_) => answer.refuse(),
    }
}

/// `reply CALL HEX`: what the record comes to as the reply to the call.
fn put_reply(words: &mut Words<'_>, answer: &mut Answer) {
    let mut data = Vec::new(answer.alloc());
    let call = words.ds_call(&mut data);
    let record = words.bytes();
    if words.end() {
        put_replied(&call, record.as_slice(), answer);
    }
}

impl Part for DsCallsRows {
    fn call(&mut self, words: &mut Words<'_>, answer: &mut Answer) {
        match words.word() {
            "fits" => put_fits(words, answer),
            "call" => put_call(words, answer),
            "reply" => put_reply(words, answer),
            _ => answer.refuse(),
        }
    }
}
