//! A fence: `start MIRRORS CRED`, `next_call XID`, `on_reply XID REPLY`, `on_timeout XID`, `tick`, `drop_mirror ID`. Behind
//! each answer stands whether it is done.

use crate::steps::put_next;
use cluster_model::FenceStep;
use fence::Fence;
use row_words::{Answer, Part, Words};

/// The fence that is under way.
#[derive(Drop)]
pub struct FenceRows {
    fence: Option<Fence>,
}

impl FenceRows {
    /// None yet.
    pub fn new() -> FenceRows {
        FenceRows { fence: None }
    }
}

/// What an answer or a timeout came to.
fn put_step(step: FenceStep, answer: &mut Answer) {
    match step {
        FenceStep::Stranger => answer.word("Stranger"),
        FenceStep::Acked => answer.word("Acked"),
        FenceStep::Again => answer.word("Again"),
        FenceStep::Failed { id, cause } => {
            answer.word("Failed");
            answer.mirror_id(id);
            answer.left_cause(cause);
        }
    }
}

/// The answer to a call.
fn put_reply(fence: &mut Fence, words: &mut Words<'_>, answer: &mut Answer) {
    let mut bytes = Vec::new(words.alloc());
    let xid = words.number32();
    let reply = words.ds_reply(&mut bytes);
    if words.end() {
        put_step(fence.on_reply(xid, &reply), answer);
    }
}

/// The call of a number goes out or times out.
fn put_on_number(fence: &mut Fence, name: &str, words: &mut Words<'_>, answer: &mut Answer) {
    let xid = words.number32();
    if !words.end() {
        return;
    }
    match name {
        "next_call" => put_next(fence.next_call(xid), answer),
        "on_timeout" => put_step(fence.on_timeout(xid), answer),
        _ => answer.refuse(),
    }
}

/// A tick.
fn put_tick(fence: &mut Fence, words: &mut Words<'_>, answer: &mut Answer) {
    if words.end() {
        fence.tick();
        answer.word("Ok");
    }
}

/// A mirror leaves.
fn put_dropped(fence: &mut Fence, words: &mut Words<'_>, answer: &mut Answer) {
    let id = words.mirror_id();
    if words.end() {
        fence.drop_mirror(id);
        answer.word("Ok");
    }
}

/// Makes a call on a fence.
fn put_call(fence: &mut Fence, name: &str, words: &mut Words<'_>, answer: &mut Answer) {
    match name {
        "start" => answer.word("Ok"),
        "on_reply" => put_reply(fence, words, answer),
        "tick" => put_tick(fence, words, answer),
        "drop_mirror" => put_dropped(fence, words, answer),
        _ => put_on_number(fence, name, words, answer),
    }
}

impl FenceRows {
    /// Begins a fence.
    fn begin(&mut self, words: &mut Words<'_>, answer: &mut Answer) {
        let mirrors = words.mirrors();
        let cred = words.cred();
        if mirrors.len() == 0 {
            return answer.refuse();
        }
        if words.end() {
            self.fence = Some(Fence::start(mirrors, cred));
        }
    }
}

impl Part for FenceRows {
    fn call(&mut self, words: &mut Words<'_>, answer: &mut Answer) {
        let name = words.word();
        if name == "start" {
            self.begin(words, answer);
        }
        match &mut self.fence {
            None => answer.refuse(),
            Some(fence) => {
                put_call(fence, name, words, answer);
                answer.state();
                answer.flag(fence.done());
            }
        }
    }
}
