//! A table of devices.

use crate::addresses::{address, put_address};
use device_addr::{AddFault, DeviceTable, NetAddr};
use nfs4_types::DeviceId;
use row_words::{Answer, Part, Words};
use std::alloc::Global;

/// A table of devices and their addresses.
#[derive(Drop)]
pub struct DevicesRows {
    alloc: Global,
    table: DeviceTable,
}

impl DevicesRows {
    /// A table of no devices; takes no memory.
    pub fn new(alloc: Global) -> DevicesRows {
        DevicesRows {
            alloc,
            table: DeviceTable::new(alloc),
        }
    }

    /// `new`: no devices again.
    fn clear(&mut self, words: &mut Words<'_>, answer: &mut Answer) {
        if words.end() {
            self.table = DeviceTable::new(self.alloc);
            answer.word("Ok");
        }
    }

    /// `add DEVICE HOST PORT`.
    fn add(&mut self, words: &mut Words<'_>, answer: &mut Answer) {
        let device = DeviceId(words.sized::<16>());
        let address = address(words);
        if words.end() {
            put_added(self.table.add(device, address), answer);
        }
    }

    /// `get DEVICE`.
    fn get(&self, words: &mut Words<'_>, answer: &mut Answer) {
        let device = DeviceId(words.sized::<16>());
        if words.end() {
            put_found(self.table.get(device), answer);
        }
    }
}

/// Whether a device was added.
fn put_added(added: Result<(), AddFault>, answer: &mut Answer) {
    match added {
        Ok(()) => answer.word("Ok"),
        Err(AddFault::Known) => answer.word("Known"),
        Err(AddFault::Full) => answer.word("Full"),
        Err(AddFault::NoMemory) => answer.want_memory(),
    }
}

/// An address, or that there is none.
fn put_found(found: Option<NetAddr>, answer: &mut Answer) {
    match found {
        Some(address) => {
            answer.word("Some");
            put_address(&address, answer);
        }
        None => answer.word("None"),
    }
}

impl Part for DevicesRows {
    fn call(&mut self, words: &mut Words<'_>, answer: &mut Answer) {
        match words.word() {
            "new" => self.clear(words, answer),
            "add" => self.add(words, answer),
            "get" => self.get(words, answer),
            _ => answer.refuse(),
        }
    }
}
