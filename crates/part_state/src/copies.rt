//! A copy: `start ID@TICK PLAN CRED`, `next_call XID`, `on_reply XID REPLY`, `on_timeout XID`, `tick`. PLAN is
//! `SERVER:NAME:REPLACED` with commas between, the last an ID or `-`. Behind each answer stands the outcome.

use ff_xdr::NoMemory;
use resilver::{Copy, CopyStep, Target};
use row_words::{Answer, Part, RowFault, Words};

/// The copy that is under way.
#[derive(Drop)]
pub struct CopyRows {
    copy: Option<Copy>,
}

impl CopyRows {
    /// None yet.
    pub fn new() -> CopyRows {
        CopyRows { copy: None }
    }
}

/// `2:4:d2.2`: a target of a plan.
fn target(words: &mut Words<'_>) -> Target {
    Target {
        server: words.number32_before(":"),
        name: words.number64_before(":"),
        replaced: words.mirror_id_option(),
    }
}

/// The targets of a plan; `-` is none.
fn plan(words: &mut Words<'_>) -> Vec<Target> {
    let mut plan = Vec::new(words.alloc());
    if words.is_none() {
        return plan;
    }
    for text in words.word().split(',') {
        let mut item = Words::of(words.alloc(), text);
        if plan.push(target(&mut item)).is_err() {
            words.note(RowFault::NoMemory);
        }
        words.behind(item);
    }
    plan
}

/// What an answer or a timeout came to.
fn put_step(step: CopyStep, answer: &mut Answer) {
    match step {
        CopyStep::Stranger => answer.word("Stranger"),
        CopyStep::Waiting => answer.word("Waiting"),
        CopyStep::SourceFailed(cause) => {
            answer.word("SourceFailed");
            answer.left_cause(cause);
        }
        CopyStep::TargetFailed { server, cause, .. } => {
            answer.word("TargetFailed");
            answer.number32(server);
            answer.left_cause(cause);
        }
        CopyStep::Done => answer.word("Done"),
    }
}

/// The next call that goes out.
fn put_next(copy: &mut Copy, xid: u32, answer: &mut Answer) {
    match copy.next_call(xid) {
        None => answer.word("None"),
        Some((server, call)) => {
            answer.word("Some");
            answer.number32(server);
            answer.ds_call(&call);
        }
    }
}

/// What an answer came to.
fn put_replied(step: Result<CopyStep, NoMemory>, answer: &mut Answer) {
    match step {
        Err(_) => answer.want_memory(),
        Ok(step) => {
            answer.word("Ok");
            put_step(step, answer);
        }
    }
}

/// The answer to a call.
fn put_reply(copy: &mut Copy, words: &mut Words<'_>, answer: &mut Answer) {
    let mut bytes = Vec::new(words.alloc());
    let xid = words.number32();
    let reply = words.ds_reply(&mut bytes);
    if words.end() {
        put_replied(copy.on_reply(xid, &reply), answer);
    }
}

/// The call of a number goes out or times out.
fn put_on_number(copy: &mut Copy, name: &str, words: &mut Words<'_>, answer: &mut Answer) {
    let xid = words.number32();
    if !words.end() {
        return;
    }
    match name {
        "next_call" => put_next(copy, xid, answer),
        "on_timeout" => put_step(copy.on_timeout(xid), answer),
        _ => answer.refuse(),
    }
}

/// A tick.
fn put_tick(copy: &mut Copy, words: &mut Words<'_>, answer: &mut Answer) {
    if words.end() {
        copy.tick();
        answer.word("Ok");
    }
}

/// Makes a call on a copy.
fn put_call(copy: &mut Copy, name: &str, words: &mut Words<'_>, answer: &mut Answer) {
    match name {
        "start" => answer.word("Ok"),
        "on_reply" => put_reply(copy, words, answer),
        "tick" => put_tick(copy, words, answer),
        _ => put_on_number(copy, name, words, answer),
    }
}

/// The outcome of a copy.
fn put_outcome(copy: &Copy, answer: &mut Answer) {
    match copy.outcome() {
        None => answer.word("None"),
        Some(targets) => {
            answer.word("Some");
            answer.targets(&targets);
        }
    }
}

impl CopyRows {
    /// Begins a copy, to at most four targets.
    fn begin(&mut self, words: &mut Words<'_>, answer: &mut Answer) {
        let source = words.mirror();
        let plan = plan(words);
        let cred = words.cred();
        if plan.len() > 4 {
            return answer.refuse();
        }
        if words.end() {
            self.copy = Some(Copy::start(words.alloc(), source, &plan, cred));
        }
    }
}

impl Part for CopyRows {
    fn call(&mut self, words: &mut Words<'_>, answer: &mut Answer) {
        let name = words.word();
        if name == "start" {
            self.begin(words, answer);
        }
        match &mut self.copy {
            None => answer.refuse(),
            Some(copy) => {
                put_call(copy, name, words, answer);
                answer.state();
                put_outcome(copy, answer);
            }
        }
    }
}
