//! A store, on the disks that `disks` of `part_log` says. `open NUMBER` opens their log as the data server with a number: `Ok`, `Disk`,
//! `BadLog` and the byte, or `BootsSpent`. `record FROM HEX` and `apply HEX` are as of a server, or `Disk` or `Broken`;
//! `again TIMES FROM HEX` is the record so many times, and the last answer. `close` gives the disks back. `stop CALLS` has every call of
//! a disk fail behind so many more of its own, and `tear NUMBER CALLS CHOICE` is that, `open NUMBER`, where that went `close`, and
//! `crash CHOICE`. `crashes` tries a stop at each call (`crashes.rt`).

use crate::apply::{Applied, put_done};
use crate::crashes::put_crashes;
use crate::outbox::put_outbox;
use cluster_model::{NodeId, Outbox};
use ds_store::{OpenFault, Store, StoreFault};
use part_log::DisksAtHand;
use row_words::{Answer, Part, Words};
use std::alloc::Global;
use store_disk::MemoryDisk;

/// A store or, where it is closed, its disks.
#[derive(Drop)]
pub struct StoreRows {
    alloc: Global,
    disks: DisksAtHand,
    store: Option<Store<MemoryDisk>>,
}

/// Why a call was not done.
fn put_fault(fault: StoreFault, answer: &mut Answer) {
    match fault {
        StoreFault::Disk => answer.word("Disk"),
        StoreFault::Broken => answer.word("Broken"),
        StoreFault::NoMemory => answer.want_memory(),
    }
}

/// Hands a record to a store.
fn put_record(store: &mut Store<MemoryDisk>, words: &mut Words<'_>, answer: &mut Answer) {
    let from = words.node();
    let record = words.bytes();
    if !words.end() {
        return;
    }
    put_recorded(store, from, &record, answer);
}

/// What comes of a record.
fn put_recorded(store: &mut Store<MemoryDisk>, from: NodeId, record: &[u8], answer: &mut Answer) {
    let mut out = Outbox::new(answer.alloc());
    match store.on_record(from, record, &mut out) {
        Ok(()) => put_outbox(&out, answer),
        Err(fault) => put_fault(fault, answer),
    }
}

/// Hands a record to a store so many times.
fn put_again(store: &mut Store<MemoryDisk>, words: &mut Words<'_>, answer: &mut Answer) {
    let times = words.number32();
    let from = words.node();
    let record = words.bytes();
    if !words.end() {
        return;
    }
    for _time in 1..times {
        let mut out = Outbox::new(answer.alloc());
        if let Err(fault) = store.on_record(from, &record, &mut out) {
            return put_fault(fault, answer);
        }
    }
    put_recorded(store, from, &record, answer);
}

/// What comes of a call.
fn put_applying(store: &mut Store<MemoryDisk>, applied: &Applied<'_>, answer: &mut Answer) {
    match store.apply(&applied.call, &applied.cred) {
        Ok(done) => put_done(&done, answer),
        Err(fault) => put_fault(fault, answer),
    }
}

/// Applies a call to a store.
fn put_applied(store: &mut Store<MemoryDisk>, words: &mut Words<'_>, answer: &mut Answer) {
    let record = words.bytes();
    if !words.end() {
        return;
    }
    match Applied::read(&record) {
        Some(applied) => put_applying(store, &applied, answer),
        None => answer.refuse(),
    }
}

impl StoreRows {
    /// None yet; takes no memory.
    pub fn new(alloc: Global) -> StoreRows {
        StoreRows {
            alloc,
            disks: DisksAtHand::new(alloc),
            store: None,
        }
    }

    /// Disks whose log was not opened, and why.
    fn give_back(&mut self, fault: OpenFault<MemoryDisk>, answer: &mut Answer) {
        match fault {
            OpenFault::Disk(disk, spare) => {
                self.disks.keep(disk, spare);
                answer.word("Disk");
            }
            OpenFault::BadLog { disk, spare, place } => {
                self.disks.keep(disk, spare);
                answer.word("BadLog");
                answer.number(place);
            }
            OpenFault::BootsSpent(disk, spare) => {
                self.disks.keep(disk, spare);
                answer.word("BootsSpent");
            }
            OpenFault::NoMemory(disk, spare) => {
                self.disks.keep(disk, spare);
                answer.want_memory();
            }
        }
    }

    /// Opens the log of the disks, and says so.
    fn open_as(&mut self, number: u32, answer: &mut Answer) {
        let Some(disks) = self.disks.take() else {
            return answer.refuse();
        };
        let (disk, spare) = disks.into_pair();
        match Store::open(self.alloc, number, disk, spare) {
            Ok(store) => {
                self.store = Some(store);
                answer.word("Ok");
            }
            Err(fault) => self.give_back(fault, answer),
        }
    }

    /// Opens the log.
    fn open(&mut self, words: &mut Words<'_>, answer: &mut Answer) {
        let number = words.number32();
        if words.end() {
            self.open_as(number, answer);
        }
    }

    /// Keeps the disks of the store, where one is open: whether one was.
    fn keep_disks(&mut self) -> bool {
        match self.store.take() {
            None => false,
            Some(store) => {
                let (disk, spare) = store.close();
                self.disks.keep(disk, spare);
                true
            }
        }
    }

    /// Closes the store.
    fn close(&mut self, words: &mut Words<'_>, answer: &mut Answer) {
        if !words.end() {
            return;
        }
        if self.keep_disks() {
            answer.word("Ok");
        } else {
            answer.refuse();
        }
    }

    /// Every call of a disk at hand fails behind so many more of its own.
    fn stop(&mut self, words: &mut Words<'_>, answer: &mut Answer) {
        let calls = words.number64();
        if words.end() {
            self.disks.stop_by(calls, answer);
        }
    }

    /// The disks stop behind so many calls of their own, the log is opened and closed again, and they crash.
    fn tear(&mut self, words: &mut Words<'_>, answer: &mut Answer) {
        let number = words.number32();
        let calls = words.number64();
        let choice = words.number32();
        if !words.end() {
            return;
        }
        let mut unsaid = Answer::new(self.alloc);
        self.disks.stop_by(calls, &mut unsaid);
        self.open_as(number, &mut unsaid);
        self.keep_disks();
        self.disks.crash_by(choice, answer);
    }

    /// A call on the store.
    fn on_store(&mut self, name: &str, words: &mut Words<'_>, answer: &mut Answer) {
        let Some(store) = &mut self.store else {
            return answer.refuse();
        };
        match name {
            "record" => put_record(store, words, answer),
            "again" => put_again(store, words, answer),
            _ => put_applied(store, words, answer),
        }
    }

    /// A call on the disks, where no store is open.
    fn on_disks(&mut self, name: &str, words: &mut Words<'_>, answer: &mut Answer) {
        if self.store.is_some() {
            return answer.refuse();
        }
        match name {
            "open" => self.open(words, answer),
            "stop" => self.stop(words, answer),
            "tear" => self.tear(words, answer),
            _ => self.disks.call(name, words, answer),
        }
    }
}

impl Part for StoreRows {
    fn call(&mut self, words: &mut Words<'_>, answer: &mut Answer) {
        let name = words.word();
        match name {
            "crashes" => put_crashes(words, answer),
            "close" => self.close(words, answer),
            "record" | "again" | "apply" => self.on_store(name, words, answer),
            _ => self.on_disks(name, words, answer),
        }
    }
}
