//! The calls of a client to its metadata server as words.

use client_mds_calls::{FailedMirror, MdsCall, OpenFile, SlotCall};
use cluster_model::FileId;
use nfs4_types::{SessionId, Stateid};
use row_words::{RowFault, Words};
use std::alloc::Global;

/// What a call lends its name, its bytes and its lists from.
#[derive(Drop)]
pub struct Lent {
    name: String,
    bytes: Vec<u8>,
    servers: Vec<u32>,
    failed: Vec<FailedMirror>,
}

impl Lent {
    /// Nothing yet; takes no memory.
    pub fn new(alloc: Global) -> Lent {
        Lent {
            name: String::new(alloc),
            bytes: Vec::new(alloc),
            servers: Vec::new(alloc),
            failed: Vec::new(alloc),
        }
    }

    /// Data servers, with commas between them.
    fn read_servers(&mut self, words: &mut Words<'_>) {
        if words.is_none() {
            return;
        }
        for digits in words.word().split(',') {
            if self.servers.push(words.in32(digits)).is_err() {
                words.note(RowFault::NoMemory);
            }
        }
    }

    /// The data server and the status of each mirror that failed, with commas between them.
    fn read_failed(&mut self, words: &mut Words<'_>) {
        if words.is_none() {
            return;
        }
        for text in words.word().split(',') {
            let mut item = Words::of(words.alloc(), text);
            if self.failed.push(failed_mirror(&mut item)).is_err() {
                words.note(RowFault::NoMemory);
            }
            words.behind(item);
        }
    }

    /// The name of a file.
    fn read_name(&mut self, words: &mut Words<'_>) {
        if self.name.push_str(words.word()).is_err() {
            words.note(RowFault::NoMemory);
        }
    }
}

/// `3:5`: a mirror that failed.
fn failed_mirror(words: &mut Words<'_>) -> FailedMirror {
    FailedMirror {
        server: words.number32_before(":"),
        status: words.number32(),
    }
}

/// A stateid: how often it changed, and which state it is.
fn stateid(words: &mut Words<'_>) -> Stateid {
    Stateid {
        seqid: words.number32(),
        other: words.sized::<12>(),
    }
}

/// A file and the stateid of its open.
fn open_file(words: &mut Words<'_>) -> OpenFile {
    OpenFile {
        file: FileId(words.number32()),
        stateid: stateid(words),
    }
}

/// A write of a request on a slot.
fn write_call<'b>(words: &mut Words<'_>, lent: &'b mut Lent) -> SlotCall<'b> {
    let file = open_file(words);
    let at = words.number64();
    lent.bytes = words.bytes();
    SlotCall::Write {
        file,
        at,
        bytes: lent.bytes.as_slice(),
    }
}

/// An open of a file.
fn open_call<'b>(words: &mut Words<'_>, lent: &'b mut Lent) -> SlotCall<'b> {
    lent.read_name(words);
    SlotCall::Open {
        name: lent.name.as_str(),
    }
}

/// A wish for the addresses of devices.
fn device_info<'b>(words: &mut Words<'_>, lent: &'b mut Lent) -> SlotCall<'b> {
    lent.read_servers(words);
    SlotCall::DeviceInfo {
        servers: lent.servers.as_slice(),
    }
}

/// A layout that is given back.
fn layout_return<'b>(words: &mut Words<'_>, lent: &'b mut Lent) -> SlotCall<'b> {
    let file = FileId(words.number32());
    let stateid = stateid(words);
    lent.read_failed(words);
    SlotCall::LayoutReturn {
        file,
        stateid,
        failed: lent.failed.as_slice(),
    }
}

/// A request on a slot.
fn slot_call<'b>(words: &mut Words<'_>, lent: &'b mut Lent) -> SlotCall<'b> {
    match words.word() {
        "reclaim_complete" => SlotCall::ReclaimComplete,
        "open" => open_call(words, lent),
        "layout_get" => SlotCall::LayoutGet {
            file: open_file(words),
        },
        "device_info" => device_info(words, lent),
        "write" => write_call(words, lent),
        "read" => SlotCall::Read {
            file: open_file(words),
            at: words.number64(),
            count: words.number32(),
        },
        "layout_return" => layout_return(words, lent),
        "renew" => SlotCall::Renew,
        _ => words.outside(SlotCall::Renew),
    }
}

/// A call, whose name, bytes and lists are put into what it lends them from.
pub fn mds_call<'b>(words: &mut Words<'_>, lent: &'b mut Lent) -> MdsCall<'b> {
    match words.word() {
        "exchange_id" => MdsCall::ExchangeId {
            verifier: words.number64(),
        },
        "create_session" => MdsCall::CreateSession {
            clientid: words.number64(),
            sequence: words.number32(),
        },
        "slot" => MdsCall::OnSlot {
            session: SessionId(words.sized::<16>()),
            sequence: words.number32(),
            call: slot_call(words, lent),
        },
        _ => words.outside(MdsCall::ExchangeId { verifier: 0 }),
    }
}
