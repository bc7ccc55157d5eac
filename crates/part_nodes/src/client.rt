//! A client: `new NUMBER VERIFIER XID`, `turn`, `open NAME`, `write AT HEX`, `through AT HEX`, `commit`, `read AT COUNT`,
//! `return`, `record FROM HEX`, `timeout NODE` or `timeout NODE XID`, `tick NOW`, `stray PLACE AT HEX`, `answers`,
//! `next_xid`. The moment of a record is that of the last tick, 0 before, also over a `new`.

use crate::mds::named_call;
use crate::outbox::{put_step, put_user_answer};
use cluster_model::{Entry, Outbox, UserAnswer};
use ff_xdr::NoMemory;
use mirror_client::Client;
use row_words::{Answer, Part, Words};
use std::alloc::Global;

/// The most bytes of a write.
const MAX_WRITE: usize = 65_536;

/// The longest name of a file.
const MAX_NAME: usize = 255;

/// A client, its number, and the moment of the last tick.
#[derive(Drop)]
pub struct ClientRows {
    alloc: Global,
    client: Option<Client>,
    number: u32,
    now: u64,
}

impl ClientRows {
    /// None yet; takes no memory.
    pub fn new(alloc: Global) -> ClientRows {
        ClientRows {
            alloc,
            client: None,
            number: 0,
            now: 0,
        }
    }

    /// A client is made.
    fn begin(&mut self, words: &mut Words<'_>, answer: &mut Answer) {
        let number = words.number32();
        let verifier = words.sized::<8>();
        let first_xid = words.number32();
        if !words.end() {
            return;
        }
        match Client::new(self.alloc, number, verifier, first_xid) {
            Err(_) => answer.want_memory(),
            Ok(client) => {
                self.client = Some(client);
                self.number = number;
                answer.word("Ok");
            }
        }
    }

    /// The moment of an event: a tick says its own.
    fn moment(&self, name: &str, words: &mut Words<'_>) -> u64 {
        match name {
            "tick" => words.number64(),
            _ => self.now,
        }
    }

    /// Asks a client, or hands it an event.
    fn on_client(&mut self, name: &str, words: &mut Words<'_>, answer: &mut Answer) {
        let now = self.moment(name, words);
        let Some(client) = &mut self.client else {
            return answer.refuse();
        };
        if put_asked(client, self.number, name, words, answer) {
            return;
        }
        put_event(client, now, name, words, answer);
        if words.end() && answer.fault().is_none() {
            self.now = now;
        }
    }
}

/// A request for a file of a name that is there and not too long.
fn open(client: &mut Client, words: &mut Words<'_>, out: &mut Outbox) -> Result<(), NoMemory> {
    let name = words.rest();
    if name.is_empty() || name.len() > MAX_NAME {
        return words.outside(Ok(()));
    }
    client.open(name, out)
}

/// A write of the user, through its mirrors or through the metadata server.
fn write(
    client: &mut Client,
    through: bool,
    words: &mut Words<'_>,
    out: &mut Outbox,
) -> Result<(), NoMemory> {
    let at = words.number64();
    let bytes = words.bytes();
    if bytes.is_empty() || bytes.len() > MAX_WRITE {
        return words.outside(Ok(()));
    }
    if !words.end() {
        return Ok(());
    }
    if through {
        return client.through(at, &bytes, out);
    }
    client.write(at, &bytes, out)
}

/// A client that left writes all the same.
fn stray(client: &mut Client, words: &mut Words<'_>, out: &mut Outbox) -> Result<(), NoMemory> {
    let place = words.number32();
    let at = words.number64();
    let bytes = words.bytes();
    if bytes.len() > MAX_WRITE || !client.has_left() {
        return words.outside(Ok(()));
    }
    if !words.end() {
        return Ok(());
    }
    client.stray(place, at, &bytes, out)
}

/// A read of the user.
fn read(client: &mut Client, words: &mut Words<'_>, out: &mut Outbox) -> Result<(), NoMemory> {
    let at = words.number64();
    let count = words.number32();
    if !words.end() {
        return Ok(());
    }
    client.read(at, count, out)
}

/// A commit of the user, or that it gives its layout back.
fn end_writes(
    client: &mut Client,
    name: &str,
    words: &mut Words<'_>,
    out: &mut Outbox,
) -> Result<(), NoMemory> {
    if !words.end() {
        return Ok(());
    }
    match name {
        "commit" => client.commit(out),
        "return" => client.return_all(out),
        _ => words.outside(Ok(())),
    }
}

/// A request of the user.
fn request(
    client: &mut Client,
    name: &str,
    words: &mut Words<'_>,
    out: &mut Outbox,
) -> Result<(), NoMemory> {
    match name {
        "open" => open(client, words, out),
        "write" => write(client, false, words, out),
        "through" => write(client, true, words, out),
        "read" => read(client, words, out),
        _ => end_writes(client, name, words, out),
    }
}

/// A record comes from a node.
fn record(
    client: &mut Client,
    now: u64,
    words: &mut Words<'_>,
    out: &mut Outbox,
) -> Result<(), NoMemory> {
    let from = words.node();
    let record = words.bytes();
    if !words.end() {
        return Ok(());
    }
    client.on_record(from, &record, now, out)
}

/// A call to a node times out.
fn timeout(client: &mut Client, words: &mut Words<'_>, out: &mut Outbox) -> Result<(), NoMemory> {
    let node = words.node();
    let xid = named_call(words);
    if !words.end() {
        return Ok(());
    }
    client.on_timeout(node, xid, out)
}

/// A tick, whose moment was read.
fn tick(
    client: &mut Client,
    now: u64,
    words: &mut Words<'_>,
    out: &mut Outbox,
) -> Result<(), NoMemory> {
    if !words.end() {
        return Ok(());
    }
    client.tick(now, out)
}

/// An event of a client at a moment.
fn event(
    client: &mut Client,
    now: u64,
    name: &str,
    words: &mut Words<'_>,
    out: &mut Outbox,
) -> Result<(), NoMemory> {
    match name {
        "record" => record(client, now, words, out),
        "timeout" => timeout(client, words, out),
        "tick" => tick(client, now, words, out),
        "stray" => stray(client, words, out),
        _ => request(client, name, words, out),
    }
}

/// What comes of an event of a client.
fn put_event(
    client: &mut Client,
    now: u64,
    name: &str,
    words: &mut Words<'_>,
    answer: &mut Answer,
) {
    let mut out = Outbox::new(answer.alloc());
    let step = event(client, now, name, words, &mut out);
    put_step(step, &out, answer);
}

/// The oldest answer that the user did not take.
fn put_oldest(oldest: Option<UserAnswer>, number: u32, answer: &mut Answer) {
    match oldest {
        None => answer.word("None"),
        Some(oldest) => {
            let entry = Entry::Answer {
                client: number,
                answer: oldest,
            };
            answer.word("Some");
            put_user_answer(number, &entry, answer);
        }
    }
}

/// Asks a client; answers whether the name is that of such a call.
fn put_asked(
    client: &mut Client,
    number: u32,
    name: &str,
    words: &mut Words<'_>,
    answer: &mut Answer,
) -> bool {
    if !words.is_empty() {
        return false;
    }
    match name {
        "turn" => {
            client.turn();
            answer.word("Ok");
            true
        }
        "answers" => {
            put_oldest(client.answers(), number, answer);
            true
        }
        "next_xid" => {
            answer.number32(client.next_xid());
            true
        }
        _ => false,
    }
}

impl Part for ClientRows {
    fn call(&mut self, words: &mut Words<'_>, answer: &mut Answer) {
        let name = words.word();
        if name == "new" {
            return self.begin(words, answer);
        }
        self.on_client(name, words, answer);
    }
}
