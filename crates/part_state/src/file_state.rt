//! A file's state: `making CRED WANTED`, `made MIRRORS`, `saw ID TICK`, `grant NODE UIDS_LEFT`, `recall`,
//! `take_return NODE NAMED PLACES NEXT`, `revoke CAUSE NEXT`, `own_done PLACES NEXT`, `mirror_failed ID CAUSE`,
//! `fence_done`, `settled NEXT`, `copied TARGETS NEXT`, `add_mirrors UIDS_LEFT`, `report_of MIRRORS IOERR ..`. Behind each
//! answer stand the phase, the live mirrors, the holder and the user of its period, where it has one: a copy, and the
//! fence behind it, belong to no period.

use crate::report::put_report;
use cluster_model::{EndCause, NodeId, Phase};
use layout_state::{AddMirrorFault, FileState, Grant, GrantFault, ReturnFault};
use row_words::{Answer, Part, Words};

/// The state of a file.
#[derive(Clone, Copy)]
pub struct FileStateRows {
    file: Option<FileState>,
    // its mirrors came from a copy, and are not fenced yet
    is_copied: bool,
}

impl FileStateRows {
    /// None yet.
    pub fn new() -> FileStateRows {
        FileStateRows {
            file: None,
            is_copied: false,
        }
    }
}

/// Its mirrors are made, where they are to be made and it is to have as many.
fn put_made(file: &mut FileState, words: &mut Words<'_>, answer: &mut Answer) {
    let live = words.mirrors();
    if !words.end() {
        return;
    }
    if live.len() == 0 || live.len() as u64 > u64::from(file.wanted()) {
        return answer.refuse();
    }
    let Phase::Making = file.phase() else {
        return answer.refuse();
    };
    file.made(live);
    answer.word("Ok");
}

/// Its period ends in a dirty way, where it has one.
fn put_revoked(file: &mut FileState, words: &mut Words<'_>, answer: &mut Answer) {
    let cause = words.end_cause();
    let next = words.cred();
    if !words.end() {
        return;
    }
    if cause.is_clean() || file.holder().is_none() {
        return answer.refuse();
    }
    file.revoke(cause, next);
    answer.word("Ok");
}

/// Its fence is done, where it is in one.
fn put_fence_done(file: &mut FileState, words: &mut Words<'_>, answer: &mut Answer) {
    if !words.end() {
        return;
    }
    let Phase::Fencing = file.phase() else {
        return answer.refuse();
    };
    file.fence_done();
    answer.word("Ok");
}

/// Its first mirror is committed, where it is to be.
fn put_settled(file: &mut FileState, words: &mut Words<'_>, answer: &mut Answer) {
    let next = words.cred();
    if !words.end() {
        return;
    }
    let Phase::Settling = file.phase() else {
        return answer.refuse();
    };
    file.settled(next);
    answer.word("Ok");
}

/// Fresh mirrors hold its bytes, where it is being copied and they can come into the live list.
fn put_copied(file: &mut FileState, words: &mut Words<'_>, answer: &mut Answer) {
    let targets = words.targets();
    let next = words.cred();
    if !words.end() {
        return;
    }
    let Phase::Copying = file.phase() else {
        return answer.refuse();
    };
    if !file.can_swap(&targets) {
        return answer.refuse();
    }
    file.copied(&targets, next);
    answer.word("Ok");
}

/// This ctime was seen at a mirror.
fn put_seen(file: &mut FileState, words: &mut Words<'_>, answer: &mut Answer) {
    let id = words.mirror_id();
    let tick = words.tick();
    if words.end() {
        file.saw(id, tick);
        answer.word("Ok");
    }
}

/// What a grant came to.
fn put_granted(granted: Result<Grant, GrantFault>, answer: &mut Answer) {
    match granted {
        Ok(grant) => {
            answer.word("Ok");
            answer.cred(grant.cred);
            answer.mirrors(grant.mirrors);
            answer.flag(grant.again);
        }
        Err(GrantFault::Later(phase)) => {
            answer.word("Later");
            answer.phase(phase);
        }
        Err(GrantFault::Recalling) => answer.word("Recalling"),
        Err(GrantFault::Spent) => answer.word("Spent"),
    }
}

fn put_grant(file: &mut FileState, words: &mut Words<'_>, answer: &mut Answer) {
    let node = words.node();
    let uids_left = words.number32();
    if words.end() {
        put_granted(file.grant(node, uids_left), answer);
    }
}

/// What a return came to.
fn put_returned(returned: Result<EndCause, ReturnFault>, answer: &mut Answer) {
    match returned {
        Ok(cause) => {
            answer.word("Ok");
            answer.end_cause(cause);
        }
        Err(ReturnFault::Unknown) => answer.word("Unknown"),
        Err(ReturnFault::Other { current }) => {
            answer.word("Other");
            answer.cred(current);
        }
    }
}

fn put_return(file: &mut FileState, words: &mut Words<'_>, answer: &mut Answer) {
    let node = words.node();
    let named = words.cred();
    let reported = words.places();
    let next = words.cred();
    if words.end() {
        put_returned(file.take_return(node, named, reported, next), answer);
    }
}

/// The metadata server's own write is over, where it has one.
fn put_own_done(file: &mut FileState, words: &mut Words<'_>, answer: &mut Answer) {
    let failed = words.places();
    let next = words.cred();
    if !words.end() {
        return;
    }
    match file.holder() {
        Some(NodeId::Mds) => answer.end_cause(file.own_done(failed, next)),
        _ => answer.refuse(),
    }
}

/// What came of a wish for mirrors.
fn put_added(added: Result<(), AddMirrorFault>, answer: &mut Answer) {
    match added {
        Ok(()) => answer.word("Ok"),
        Err(AddMirrorFault::Later(phase)) => {
            answer.word("Later");
            answer.phase(phase);
        }
        Err(AddMirrorFault::Whole) => answer.word("Whole"),
        Err(AddMirrorFault::Spent) => answer.word("Spent"),
    }
}

fn put_add(file: &mut FileState, words: &mut Words<'_>, answer: &mut Answer) {
    let uids_left = words.number32();
    if words.end() {
        put_added(file.add_mirrors(uids_left), answer);
    }
}

/// A live mirror fails, where mirrors may leave by themselves.
fn put_failed(file: &mut FileState, words: &mut Words<'_>, answer: &mut Answer) {
    let id = words.mirror_id();
    let cause = words.left_cause();
    if !words.end() {
        return;
    }
    match file.phase() {
        Phase::Fencing | Phase::Settling | Phase::Copying => {
            answer.flag(file.mirror_failed(id, cause));
        }
        _ => answer.refuse(),
    }
}

fn put_recall(file: &mut FileState, words: &mut Words<'_>, answer: &mut Answer) {
    if words.end() {
        answer.flag(file.recall());
    }
}

/// Makes a call that answers nothing.
fn put_change(file: &mut FileState, name: &str, words: &mut Words<'_>, answer: &mut Answer) {
    match name {
        "making" => answer.word("Ok"),
        "made" => put_made(file, words, answer),
        "saw" => put_seen(file, words, answer),
        "revoke" => put_revoked(file, words, answer),
        "fence_done" => put_fence_done(file, words, answer),
        "settled" => put_settled(file, words, answer),
        "copied" => put_copied(file, words, answer),
        _ => answer.refuse(),
    }
}

/// Makes a call.
fn put_call(file: &mut FileState, name: &str, words: &mut Words<'_>, answer: &mut Answer) {
    match name {
        "grant" => put_grant(file, words, answer),
        "recall" => put_recall(file, words, answer),
        "take_return" => put_return(file, words, answer),
        "own_done" => put_own_done(file, words, answer),
        "mirror_failed" => put_failed(file, words, answer),
        "add_mirrors" => put_add(file, words, answer),
        "report_of" => put_report(words, answer),
        _ => put_change(file, name, words, answer),
    }
}

/// Who holds a file.
fn put_holder(holder: Option<NodeId>, answer: &mut Answer) {
    match holder {
        None => answer.word("-"),
        Some(holder) => answer.node(holder),
    }
}

/// What is seen of a file.
fn put_state(file: &FileState, is_copied: bool, answer: &mut Answer) {
    answer.state();
    answer.phase(file.phase());
    answer.mirrors(file.live());
    put_holder(file.holder(), answer);
    match file.phase() {
        Phase::Copying => answer.word("-"),
        Phase::Fencing if is_copied => answer.word("-"),
        _ => answer.cred(file.cred()),
    }
}

impl FileStateRows {
    /// A new file.
    fn begin(&mut self, words: &mut Words<'_>) {
        let first = words.cred();
        let wanted = words.number32();
        if words.end() {
            self.file = Some(FileState::making(first, wanted));
        }
    }
}

/// Whether a file's mirrors came from a copy, and are not fenced yet, behind a call.
fn stays_copied(file: &FileState, is_copied: bool, name: &str, answer: &Answer) -> bool {
    let is_refused = answer.fault().is_some();
    match file.phase() {
        Phase::Fencing => is_copied || (name == "copied" && !is_refused),
        _ => false,
    }
}

impl Part for FileStateRows {
    fn call(&mut self, words: &mut Words<'_>, answer: &mut Answer) {
        let name = words.word();
        if name == "making" {
            self.begin(words);
        }
        let Some(file) = &mut self.file else {
            return answer.refuse();
        };
        put_call(file, name, words, answer);
        if words.end() {
            self.is_copied = stays_copied(file, self.is_copied, name, answer);
        }
        put_state(file, self.is_copied, answer);
    }
}
