//! Recalls as records: `call XID SESSION PROGRAM SEQUENCE FILE SEQID OTHER`, a stateid being its last two words; and `reply
//! HEX`, whose answer is the number of the status that it says.

use cluster_model::{FileId, NodeId};
use nfs4_session::BackCall;
use nfs4_types::{SessionId, Stateid};
use recall_calls::{recall_answer, recall_record};
use row_words::{Answer, Part, Words};
use rpc_record::Reply;

/// Recalls as records, and what their answers say.
#[derive(Drop)]
pub struct RecallCallsRows;

/// `call`: the record of the recall.
fn put_call(words: &mut Words<'_>, answer: &mut Answer) {
    let xid = words.number32();
    let call = BackCall {
        session: SessionId(words.sized()),
        node: NodeId::Client(1),
        program: words.number32(),
        sequence: words.number32(),
    };
    let file = FileId(words.number32());
    let stateid = Stateid {
        seqid: words.number32(),
        other: words.sized(),
    };
    if !words.end() {
        return;
    }
    match recall_record(answer.alloc(), xid, &call, file, stateid) {
        Ok(message) => answer.bytes(message.bytes()),
        Err(_) => answer.want_memory(),
    }
}

/// `reply`: what the record says as the reply to a recall.
fn put_status(words: &mut Words<'_>, answer: &mut Answer) {
    let message = words.bytes();
    if !words.end() {
        return;
    }
    match Reply::read(message.as_slice()) {
        Ok(reply) => answer.number32(recall_answer(&reply.body).number()),
        Err(_) => answer.refuse(),
    }
}

impl Part for RecallCallsRows {
    fn call(&mut self, words: &mut Words<'_>, answer: &mut Answer) {
        match words.word() {
            "call" => put_call(words, answer),
            "reply" => put_status(words, answer),
            _ => answer.refuse(),
        }
    }
}
