//! A call that is handed to a data server without its record's header.

use ds_files::{Answer3, DataServer};
use ff_xdr::Wire;
use nfs3_wire::{Call3, is_built, read_call};
use row_words::{Answer, Words};
use rpc_record::{AuthSys, Call};

/// The call that a record spells, and the credential that stands in it.
#[derive(Drop)]
pub struct Applied<'a> {
    pub call: Call3<'a>,
    pub cred: AuthSys<'a>,
}

impl<'a> Applied<'a> {
    /// The call of a record.
    pub fn read(message: &'a [u8]) -> Option<Applied<'a>> {
        let call = Call::read(message).ok()?;
        if !is_built(call.procedure) {
            return None;
        }
        Some(Applied {
            call: read_call(call.procedure, call.args).ok()?,
            cred: AuthSys::from_bytes(call.cred.body).ok()?,
        })
    }
}

/// The reply to a call, and how many entries it makes.
pub fn put_done(done: &Answer3, answer: &mut Answer) {
    answer.debug(&done.reply());
    answer.state();
    answer.number(done.entries().len() as u64);
}

/// What comes of a call.
fn put_applying(server: &mut DataServer, applied: &Applied<'_>, answer: &mut Answer) {
    match server.apply(&applied.call, &applied.cred) {
        Ok(done) => put_done(&done, answer),
        Err(_) => answer.want_memory(),
    }
}

/// Applies the call that a record spells, by the credential that stands in it.
pub fn put_applied(server: &mut DataServer, words: &mut Words<'_>, answer: &mut Answer) {
    let message = words.bytes();
    if !words.end() {
        return;
    }
    match Applied::read(&message) {
        Some(applied) => put_applying(server, &applied, answer),
        None => answer.refuse(),
    }
}
