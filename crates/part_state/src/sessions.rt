//! Clients and sessions: `new BOOT`, `exchange_id VERIFIER OWNER NOW`,
//! `create_session CLIENT SEQUENCE FLAGS FORE BACK PROGRAM NODE NOW`, `begin SESSION SEQUENCE SLOT HIGHEST CACHETHIS NOW`,
//! `finish PASS HEX`, `bind SESSION NODE`, `destroy_session SESSION`, `destroy_client CLIENT`, `back_channel CLIENT`,
//! `expire NOW`, `next_sequence N`. FORE and BACK are seven words each: headerpadsize, maxrequestsize, maxresponsesize,
//! maxresponsesize_cached, maxoperations, maxrequests, and rdma_ird, an option. PASS counts the answers `New` from 1.

use nfs4_session::{
    BackCall, Begin, Created, Exchanged, IdFault, SessionFault, Sessions, SlotPass, next_sequence,
};
use nfs4_types::{ChannelAttrs, Sequence, SessionId, Stat4};
use row_words::{Answer, Part, Words};
use std::alloc::Global;

/// The clients of a metadata server, and the requests that take effect.
#[derive(Drop)]
pub struct SessionsRows {
    alloc: Global,
    sessions: Option<Sessions>,
    passes: Vec<SlotPass>,
}

impl SessionsRows {
    /// None yet; takes no memory.
    pub fn new(alloc: Global) -> SessionsRows {
        SessionsRows {
            alloc,
            sessions: None,
            passes: Vec::new(alloc),
        }
    }
}

fn session(words: &mut Words<'_>) -> SessionId {
    SessionId(words.sized::<16>())
}

fn channel(words: &mut Words<'_>) -> ChannelAttrs {
    ChannelAttrs {
        headerpadsize: words.number32(),
        maxrequestsize: words.number32(),
        maxresponsesize: words.number32(),
        maxresponsesize_cached: words.number32(),
        maxoperations: words.number32(),
        maxrequests: words.number32(),
        rdma_ird: words.option32(),
    }
}

/// What an EXCHANGE_ID came to.
fn put_exchanged(exchanged: Result<Exchanged, IdFault>, answer: &mut Answer) {
    match exchanged {
        Ok(one) => {
            answer.word("Ok");
            answer.number(one.client);
            answer.number32(one.sequence);
            answer.flag(one.confirmed);
        }
        Err(IdFault::Full) => answer.word("Full"),
        Err(IdFault::NoMemory) => answer.want_memory(),
    }
}

fn put_exchange(sessions: &mut Sessions, words: &mut Words<'_>, answer: &mut Answer) {
    let verifier = words.sized::<8>();
    let owner = words.bytes();
    let now = words.number64();
    if words.end() {
        put_exchanged(sessions.exchange_id(verifier, &owner, now), answer);
    }
}

/// A client, or that there is none.
fn put_gone(gone: Option<u64>, answer: &mut Answer) {
    match gone {
        None => answer.word("-"),
        Some(client) => answer.number(client),
    }
}

/// What a CREATE_SESSION came to.
fn put_created(created: Result<Created, SessionFault>, answer: &mut Answer) {
    match created {
        Ok(created) => {
            answer.word("Ok");
            answer.bytes(&created.session.0);
            put_gone(created.gone, answer);
            answer.flag(created.replayed);
        }
        Err(SessionFault::StaleClient) => answer.word("StaleClient"),
        Err(SessionFault::Misordered) => answer.word("Misordered"),
        Err(SessionFault::Full) => answer.word("Full"),
        Err(SessionFault::NoMemory) => answer.want_memory(),
    }
}

fn put_create(sessions: &mut Sessions, words: &mut Words<'_>, answer: &mut Answer) {
    let client = words.number64();
    let sequence = words.number32();
    let flags = words.number32();
    let fore = channel(words);
    let back = channel(words);
    let program = words.number32();
    let node = words.node();
    let now = words.number64();
    if words.end() {
        let created = sessions.create_session(
            client, sequence, flags, &fore, &back, program, node, now,
        );
        put_created(created, answer);
    }
}

fn request(words: &mut Words<'_>) -> Sequence {
    Sequence {
        session: session(words),
        sequence: words.number32(),
        slot: words.number32(),
        highest: words.number32(),
        cachethis: words.flag(),
    }
}

/// A request takes effect, which is noted.
fn put_new(client: u64, slot: SlotPass, passes: &mut Vec<SlotPass>, answer: &mut Answer) {
    if passes.push(slot).is_err() {
        return answer.want_memory();
    }
    answer.word("New");
    answer.number(client);
    answer.number(passes.len() as u64);
}

/// What a request comes to. One that takes effect is noted.
fn put_begin(
    sessions: &mut Sessions,
    passes: &mut Vec<SlotPass>,
    words: &mut Words<'_>,
    answer: &mut Answer,
) {
    let request = request(words);
    let now = words.number64();
    if !words.end() {
        return;
    }
    match sessions.begin(&request, now) {
        Begin::New { client, slot } => put_new(client, slot, passes, answer),
        Begin::Replay(kept) => {
            answer.word("Replay");
            answer.bytes(kept);
        }
        Begin::Refused(status) => {
            answer.word("Refused");
            answer.number32(status.number());
        }
    }
}

/// The request of this number, counted from 1.
fn pass_of(passes: &[SlotPass], number: u32) -> Option<SlotPass> {
    let place = number.checked_sub(1)?;
    passes.get(place as usize).copied()
}

/// A request that took effect is answered.
fn put_finished(
    sessions: &mut Sessions,
    passes: &[SlotPass],
    words: &mut Words<'_>,
    answer: &mut Answer,
) {
    let Some(pass) = pass_of(passes, words.number32()) else {
        return answer.refuse();
    };
    let answered = words.bytes();
    if words.end() {
        sessions.finish(pass, &answered);
        answer.word("Ok");
    }
}

fn put_done(done: Result<(), Stat4>, answer: &mut Answer) {
    match done {
        Ok(()) => answer.word("Ok"),
        Err(status) => {
            answer.word("Err");
            answer.number32(status.number());
        }
    }
}

fn put_back(back: Option<BackCall>, answer: &mut Answer) {
    match back {
        None => answer.word("None"),
        Some(back) => {
            answer.word("Some");
            answer.bytes(&back.session.0);
            answer.node(back.node);
            answer.number32(back.program);
            answer.number32(back.sequence);
        }
    }
}

fn put_expired(client: Option<u64>, answer: &mut Answer) {
    match client {
        None => answer.word("None"),
        Some(client) => {
            answer.word("Some");
            answer.number(client);
        }
    }
}

fn put_bound(sessions: &mut Sessions, words: &mut Words<'_>, answer: &mut Answer) {
    let session = session(words);
    let node = words.node();
    if words.end() {
        put_done(sessions.bind(session, node), answer);
    }
}

fn put_destroyed(sessions: &mut Sessions, words: &mut Words<'_>, answer: &mut Answer) {
    let session = session(words);
    if words.end() {
        put_done(sessions.destroy_session(session), answer);
    }
}

/// Makes a call that says a client or a moment.
fn put_on_number(sessions: &mut Sessions, name: &str, words: &mut Words<'_>, answer: &mut Answer) {
    let number = words.number64();
    if !words.end() {
        return;
    }
    match name {
        "destroy_client" => put_done(sessions.destroy_client(number), answer),
        "back_channel" => put_back(sessions.back_channel(number), answer),
        "expire" => put_expired(sessions.expire(number), answer),
        _ => answer.refuse(),
    }
}

/// Makes a call on clients and sessions that are there.
fn put_call(sessions: &mut Sessions, name: &str, words: &mut Words<'_>, answer: &mut Answer) {
    match name {
        "exchange_id" => put_exchange(sessions, words, answer),
        "create_session" => put_create(sessions, words, answer),
        "bind" => put_bound(sessions, words, answer),
        "destroy_session" => put_destroyed(sessions, words, answer),
        _ => put_on_number(sessions, name, words, answer),
    }
}

/// The number behind a number.
fn put_next_sequence(words: &mut Words<'_>, answer: &mut Answer) {
    let sequence = words.number32();
    if words.end() {
        answer.number32(next_sequence(sequence));
    }
}

impl SessionsRows {
    /// No clients, at a boot.
    fn begin(&mut self, words: &mut Words<'_>, answer: &mut Answer) {
        let boot = words.number32();
        if !words.end() {
            return;
        }
        match Sessions::new(self.alloc, boot) {
            Err(_) => answer.want_memory(),
            Ok(sessions) => {
                self.sessions = Some(sessions);
                self.passes.clear();
                answer.word("Ok");
            }
        }
    }

    /// Makes a call on what is there.
    fn on_sessions(&mut self, name: &str, words: &mut Words<'_>, answer: &mut Answer) {
        let Some(sessions) = &mut self.sessions else {
            return answer.refuse();
        };
        match name {
            "begin" => put_begin(sessions, &mut self.passes, words, answer),
            "finish" => put_finished(sessions, &self.passes, words, answer),
            _ => put_call(sessions, name, words, answer),
        }
    }
}

impl Part for SessionsRows {
    fn call(&mut self, words: &mut Words<'_>, answer: &mut Answer) {
        match words.word() {
            "next_sequence" => put_next_sequence(words, answer),
            "new" => self.begin(words, answer),
            name => self.on_sessions(name, words, answer),
        }
    }
}
