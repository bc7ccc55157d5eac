//! The calls and replies of RPC.

use crate::show::{put_place, put_refusal, put_value};
use ff_xdr::{Out, Wire};
use row_words::Answer;
use rpc_record::{Call, CallFault, Reply};

/// The call spells these bytes.
fn is_call_spelled(call: &Call<'_>, bytes: &[u8], answer: &mut Answer) -> bool {
    // read, so that the check knows that each fits a word
    let _words = (call.program, call.version, call.procedure);
    if !call.cred.fits() {
        return false;
    }
    if !call.verf.fits() {
        return false;
    }
    let mut out = Out::new(answer.alloc());
    if call.write(&mut out).is_err() {
        answer.want_memory();
    }
    out.bytes() == bytes
}

/// Why a record is no call.
fn put_call_fault(fault: CallFault, answer: &mut Answer) {
    match fault {
        CallFault::NotACall => answer.word("NotACall"),
        CallFault::RpcVersion { xid } => {
            answer.word("RpcVersion");
            answer.number32(xid);
        }
        CallFault::Bad { xid, error } => {
            answer.word("Bad");
            answer.number32(xid);
            put_place(error, answer);
        }
    }
}

/// The call that a record is.
pub fn put_call(bytes: &[u8], answer: &mut Answer) {
    match Call::read(bytes) {
        Ok(call) => {
            let is_spelled = is_call_spelled(&call, bytes, answer);
            put_value(&call, is_spelled, answer);
        }
        Err(fault) => put_call_fault(fault, answer),
    }
}

/// The reply spells these bytes.
fn is_reply_spelled(reply: &Reply<'_>, bytes: &[u8], answer: &mut Answer) -> bool {
    if !reply.fits() {
        return false;
    }
    let mut out = Out::new(answer.alloc());
    if reply.write(&mut out).is_err() {
        answer.want_memory();
    }
    out.bytes() == bytes
}

/// The reply that a record is.
pub fn put_reply(bytes: &[u8], answer: &mut Answer) {
    match Reply::read(bytes) {
        Ok(reply) => {
            let is_spelled = is_reply_spelled(&reply, bytes, answer);
            put_value(&reply, is_spelled, answer);
        }
        Err(error) => put_refusal(error, answer),
    }
}
