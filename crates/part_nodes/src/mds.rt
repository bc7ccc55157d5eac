//! A metadata server: `new SERVERS MIRRORS`, whose data server number n has the address 127.0.0.1.8.n, `record FROM NOW HEX`,
//! `timeout NODE NOW`, `timeout NODE NOW XID`, `tick NOW`, `recall FILE NOW`, `resilver FILE`. The answer is what the step
//! entered and sent.

use crate::outbox::put_step;
use cluster_model::{FileId, Outbox};
use device_addr::NetAddr;
use ff_xdr::NoMemory;
use mds_core::Mds;
use node_config::{Config, MAX_MIRRORS, MAX_SERVERS};
use row_words::{Answer, Part, RowFault, Words};
use std::alloc::Global;

/// The port of the universal address `8.0`, the metadata server's.
const MDS_PORT: u16 = 2_048;

/// A metadata server.
#[derive(Drop)]
pub struct MdsRows {
    alloc: Global,
    mds: Option<Mds>,
}

/// An address on this host.
fn local(port: u16) -> NetAddr {
    NetAddr {
        host: [127, 0, 0, 1],
        port,
    }
}

/// The addresses of so many data servers.
fn addresses(alloc: Global, count: u32) -> Result<Vec<NetAddr>, RowFault> {
    let mut servers = Vec::new(alloc);
    let mut port = MDS_PORT;
    for _ in 0..count {
        port = port.wrapping_add(1);
        servers.push(local(port))?;
    }
    Ok(servers)
}

/// A server over these data servers, where its configuration is one.
fn made(alloc: Global, servers: Vec<NetAddr>, mirrors: u32) -> Result<Mds, RowFault> {
    if mirrors == 0
        || mirrors > MAX_MIRRORS
        || mirrors as usize > servers.len()
        || servers.len() > MAX_SERVERS
    {
        return Err(RowFault::Outside);
    }
    let config = Config {
        servers,
        mds: local(MDS_PORT),
        mirrors,
        own: 1,
        turns: 1,
    };
    Ok(Mds::new(alloc, &config)?)
}

/// A server over so many data servers.
fn made_over(alloc: Global, count: u32, mirrors: u32) -> Result<Mds, RowFault> {
    if count as usize > MAX_SERVERS {
        return Err(RowFault::Outside);
    }
    made(alloc, addresses(alloc, count)?, mirrors)
}

impl MdsRows {
    /// None yet; takes no memory.
    pub fn new(alloc: Global) -> MdsRows {
        MdsRows { alloc, mds: None }
    }

    /// A server is made.
    fn begin(&mut self, words: &mut Words<'_>, answer: &mut Answer) {
        let count = words.number32();
        let mirrors = words.number32();
        if !words.end() {
            return;
        }
        match made_over(self.alloc, count, mirrors) {
            Err(fault) => answer.note(fault),
            Ok(mds) => {
                self.mds = Some(mds);
                answer.word("Ok");
            }
        }
    }
}

/// A record from a node, at a moment.
fn record(mds: &mut Mds, words: &mut Words<'_>, out: &mut Outbox) -> Result<(), NoMemory> {
    let from = words.node();
    let now = words.number64();
    let record = words.bytes();
    if !words.end() {
        return Ok(());
    }
    mds.on_record(from, &record, now, out)
}

/// The number of a call, where the line has one more word.
pub fn named_call(words: &mut Words<'_>) -> Option<u32> {
    if words.is_empty() {
        return None;
    }
    Some(words.number32())
}

/// A call to a node times out, at a moment: that of a number, or the one that was sent first.
fn timeout(mds: &mut Mds, words: &mut Words<'_>, out: &mut Outbox) -> Result<(), NoMemory> {
    let to = words.node();
    let now = words.number64();
    let xid = named_call(words);
    if !words.end() {
        return Ok(());
    }
    mds.on_timeout(to, xid, now, out)
}

/// A tick.
fn tick(mds: &mut Mds, words: &mut Words<'_>, out: &mut Outbox) -> Result<(), NoMemory> {
    let now = words.number64();
    if !words.end() {
        return Ok(());
    }
    mds.tick(now, out)
}

/// A file is recalled at a moment.
fn recall(mds: &mut Mds, words: &mut Words<'_>, out: &mut Outbox) -> Result<(), NoMemory> {
    let file = FileId(words.number32());
    let now = words.number64();
    if !words.end() {
        return Ok(());
    }
    mds.recall(file, now, out)
}

/// Mirrors are to be added to a file.
fn resilver(mds: &mut Mds, words: &mut Words<'_>, out: &mut Outbox) -> Result<(), NoMemory> {
    let file = FileId(words.number32());
    if !words.end() {
        return Ok(());
    }
    mds.resilver(file, out)
}

/// An event of the server.
fn event(
    mds: &mut Mds,
    name: &str,
    words: &mut Words<'_>,
    out: &mut Outbox,
) -> Result<(), NoMemory> {
    match name {
        "record" => record(mds, words, out),
        "timeout" => timeout(mds, words, out),
        "tick" => tick(mds, words, out),
        "recall" => recall(mds, words, out),
        "resilver" => resilver(mds, words, out),
        _ => words.outside(Ok(())),
    }
}

/// What comes of an event of the server.
fn put_event(mds: &mut Mds, name: &str, words: &mut Words<'_>, answer: &mut Answer) {
    let mut out = Outbox::new(answer.alloc());
    let step = event(mds, name, words, &mut out);
    put_step(step, &out, answer);
}

impl Part for MdsRows {
    fn call(&mut self, words: &mut Words<'_>, answer: &mut Answer) {
        let name = words.word();
        if name == "new" {
            return self.begin(words, answer);
        }
        match &mut self.mds {
            None => answer.refuse(),
            Some(mds) => put_event(mds, name, words, answer),
        }
    }
}
