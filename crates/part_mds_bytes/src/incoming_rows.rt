//! Records that come to the metadata server: `record HEX`. Answers are `Nothing`; `Reply`, its number, whether it is denied,
//! the number of its status and its results; `Answered` and the record that goes back; `Compound`, the number of the call, the
//! tag, the minor version, the count of operations, and what ends them.

use mds_receive::{Incoming, receive_record};
use nfs4_compound::{Compound, Stop};
use row_words::{Answer, Part, Words};
use rpc_record::{Reply, ReplyBody};

/// Records that come to the metadata server.
#[derive(Drop)]
pub struct MdsReceiveRows;

/// What a reply says.
fn put_reply(reply: &Reply<'_>, answer: &mut Answer) {
    answer.word("Reply");
    answer.number32(reply.xid);
    answer.flag(reply.body.is_denied());
    answer.number32(reply.body.stat());
    match reply.body {
        ReplyBody::Success(results) => answer.bytes(results),
        _ => answer.word("-"),
    }
}

/// What ends the operations of a compound.
fn put_stop(stop: Stop, answer: &mut Answer) {
    match stop {
        Stop::End(_) => answer.word("End"),
        Stop::Unread(number) => {
            answer.word("Unread");
            answer.number32(number);
        }
        Stop::Bad(_) => answer.word("Bad"),
    }
}

/// What stands in a compound.
fn put_compound(xid: u32, compound: &Compound<'_>, answer: &mut Answer) {
    answer.word("Compound");
    answer.number32(xid);
    answer.bytes(compound.tag().as_bytes());
    answer.number32(compound.minorversion());
    answer.number32(compound.count());
    put_stop(compound.stop(), answer);
}

/// What a record is.
fn put_incoming(incoming: &Incoming<'_>, answer: &mut Answer) {
    match incoming {
        Incoming::Nothing => answer.word("Nothing"),
        Incoming::Reply(reply) => put_reply(reply, answer),
        Incoming::Answered(bytes) => {
            answer.word("Answered");
            answer.bytes(bytes.bytes());
        }
        Incoming::Compound { xid, compound } => put_compound(*xid, compound, answer),
    }
}

/// `record HEX`: what the record is.
fn put_record(words: &mut Words<'_>, answer: &mut Answer) {
    let message = words.bytes();
    if !words.end() {
        return;
    }
    match receive_record(answer.alloc(), message.as_slice()) {
        Ok(incoming) => put_incoming(&incoming, answer),
        Err(_) => answer.want_memory(),
    }
}

impl Part for MdsReceiveRows {
    fn call(&mut self, words: &mut Words<'_>, answer: &mut Answer) {
        match words.word() {
            "record" => put_record(words, answer),
            _ => answer.refuse(),
        }
    }
}
