//! The calls and results of NFSv3.

ghost use Rattle.std.specs.Prelude.{IsTrue};
ghost use Rattle.ff_xdr.specs.Form.{has_arm};
ghost use Rattle.nfs3_wire.specs.Calls.{calls};
ghost use Rattle.nfs3_wire.specs.Replies.{nfs3_results};

use crate::asked::{Ask, longer_bytes, put_cut, row_bytes};
use crate::show::{put_refusal, put_value};
use ff_xdr::Out;
use nfs3_wire::{Call3, Reply3, is_built, read_call, read_reply, write_call, write_reply};
use row_words::{Answer, Words};

/// The call is of this procedure and spells these bytes.
fn is_call_spelled(call: &Call3<'_>, procedure: u32, bytes: &[u8], answer: &mut Answer) -> bool {
    if !call.fits() || call.procedure() != procedure {
        return false;
    }
    let mut out = Out::new(answer.alloc());
    if write_call(call, &mut out).is_err() {
        answer.want_memory();
    }
    out.bytes() == bytes
}

/// The same of a result.
fn is_reply_spelled(reply: &Reply3<'_>, procedure: u32, bytes: &[u8], answer: &mut Answer) -> bool {
    if !reply.fits() || reply.procedure() != procedure {
        return false;
    }
    let mut out = Out::new(answer.alloc());
    if write_reply(reply, &mut out).is_err() {
        answer.want_memory();
    }
    out.bytes() == bytes
}

/// The call that the bytes are.
fn put_call(procedure: u32, bytes: &[u8], answer: &mut Answer)
    requires { IsTrue (has_arm procedure calls) }
{
    match read_call(procedure, bytes) {
        Ok(call) => {
            let is_spelled = is_call_spelled(&call, procedure, bytes, answer);
            put_value(&call, is_spelled, answer);
        }
        Err(error) => put_refusal(error, answer),
    }
}

/// The result that the bytes are.
fn put_reply(procedure: u32, bytes: &[u8], answer: &mut Answer)
    requires { IsTrue (has_arm procedure nfs3_results) }
{
    match read_reply(procedure, bytes) {
        Ok(reply) => {
            let is_spelled = is_reply_spelled(&reply, procedure, bytes, answer);
            put_value(&reply, is_spelled, answer);
        }
        Err(error) => put_refusal(error, answer),
    }
}

/// What is asked of the arguments of a procedure that is built.
pub fn put_call3(ask: Ask, words: &mut Words<'_>, answer: &mut Answer) {
    let procedure = words.number32();
    let longer = longer_bytes(words);
    if !words.end() {
        return;
    }
    if !is_built(procedure) {
        return answer.refuse();
    }
    match ask {
        Ask::Value => put_call(procedure, row_bytes(&longer), answer),
        Ask::Cut => put_cut(&longer, |bytes| read_call(procedure, bytes).err(), answer),
    }
}

/// What is asked of the result of a procedure that is built.
pub fn put_reply3(ask: Ask, words: &mut Words<'_>, answer: &mut Answer) {
    let procedure = words.number32();
    let longer = longer_bytes(words);
    if !words.end() {
        return;
    }
    if !is_built(procedure) {
        return answer.refuse();
    }
    match ask {
        Ask::Value => put_reply(procedure, row_bytes(&longer), answer),
        Ask::Cut => put_cut(&longer, |bytes| read_reply(procedure, bytes).err(), answer),
    }
}
