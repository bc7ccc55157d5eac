//! The slot of a client's callbacks: `new SESSION`, `take N`, `kept STATUS`, and `session`, whose callbacks it takes.

use nfs4_session::{CbBegin, CbSlot};
use nfs4_types::{SessionId, Stat4};
use row_words::{Answer, Part, Words};

/// The slot.
#[derive(Drop)]
pub struct CbSlotRows {
    slot: Option<CbSlot>,
}

impl CbSlotRows {
    /// None yet.
    pub fn new() -> CbSlotRows {
        CbSlotRows { slot: None }
    }
}

/// What a number comes to.
fn put_begin(begin: CbBegin, answer: &mut Answer) {
    match begin {
        CbBegin::New => answer.word("New"),
        CbBegin::Again(status) => {
            answer.word("Again");
            answer.number32(status.number());
        }
        CbBegin::Misordered => answer.word("Misordered"),
    }
}

/// The number, or the status, that the line says is taken or kept.
fn put_on_number(slot: &mut CbSlot, name: &str, words: &mut Words<'_>, answer: &mut Answer) {
    let number = words.number32();
    if !words.end() {
        return;
    }
    match name {
        "take" => put_begin(slot.take(number), answer),
        "kept" => put_kept(slot, Stat4::of_number(number), answer),
        _ => answer.refuse(),
    }
}

/// A status is kept, where there is one.
fn put_kept(slot: &mut CbSlot, status: Option<Stat4>, answer: &mut Answer) {
    match status {
        None => answer.refuse(),
        Some(status) => {
            slot.kept(status);
            answer.word("Ok");
        }
    }
}

/// Makes a call on the slot.
fn put_call(slot: &mut CbSlot, name: &str, words: &mut Words<'_>, answer: &mut Answer) {
    if name != "session" {
        return put_on_number(slot, name, words, answer);
    }
    if words.end() {
        answer.bytes(&slot.session().0);
    }
}

impl CbSlotRows {
    /// The slot of a session.
    fn begin(&mut self, words: &mut Words<'_>, answer: &mut Answer) {
        let session = SessionId(words.sized::<16>());
        if words.end() {
            self.slot = Some(CbSlot::new(session));
            answer.word("Ok");
        }
    }
}

impl Part for CbSlotRows {
    fn call(&mut self, words: &mut Words<'_>, answer: &mut Answer) {
        let name = words.word();
        if name == "new" {
            return self.begin(words, answer);
        }
        match &mut self.slot {
            None => answer.refuse(),
            Some(slot) => put_call(slot, name, words, answer),
        }
    }
}
