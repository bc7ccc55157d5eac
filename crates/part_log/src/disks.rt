//! The two disks of a log. `disks HEX HEX` are a disk and a spare with these bytes, all of them synced, and `failing HEX HEX LIST LIST`
//! the same of which the calls with these numbers fail, from 1 and with commas between them, `-` for none. `crash CHOICE` are the disks
//! that a crash leaves: 0 without what was not synced, 1 with it, 2 with the first half of each range, 3 with bytes ff in its place.
//! `bytes` are what the two hold, and `lengths` how many these are.

ghost use Rattle.std.specs.Prelude.{◌<◌};

use ff_xdr::NoMemory;
use row_words::{Answer, RowFault, Words};
use std::alloc::Global;
use store_disk::MemoryDisk;

/// A disk and a spare.
#[derive(Drop)]
pub struct Disks {
    disk: MemoryDisk,
    spare: MemoryDisk,
}

impl Disks {
    /// These disks.
    pub fn of(disk: MemoryDisk, spare: MemoryDisk) -> Disks {
        Disks { disk, spare }
    }

    /// Disks that hold these bytes.
    pub fn new(alloc: Global, disk: Vec<u8>, spare: Vec<u8>) -> Result<Disks, NoMemory> {
        let disk = MemoryDisk::new(alloc, disk, Vec::new(alloc))?;
        let spare = MemoryDisk::new(alloc, spare, Vec::new(alloc))?;
        Ok(Disks { disk, spare })
    }

    /// Every call of theirs fails behind so many more of its own.
    pub fn stop_after(&mut self, calls: u64) {
        self.disk.stop_after(calls);
        self.spare.stop_after(calls);
    }

    /// What a crash leaves of both.
    pub fn crash(self, choice: u32) -> Result<Disks, NoMemory>
        requires { choice < 4 }
    {
        let disk = self.disk.crash(choice)?;
        let spare = self.spare.crash(choice)?;
        Ok(Disks { disk, spare })
    }

    /// What the disk holds.
    pub fn disk_bytes(&self) -> &[u8] {
        self.disk.bytes()
    }

    /// What the spare holds.
    pub fn spare_bytes(&self) -> &[u8] {
        self.spare.bytes()
    }

    /// The disk and the spare.
    pub fn into_pair(self) -> (MemoryDisk, MemoryDisk) {
        (self.disk, self.spare)
    }
}

/// The numbers of the calls that fail.
fn read_numbers(words: &mut Words<'_>) -> Vec<u64> {
    let mut numbers = Vec::new(words.alloc());
    if words.is_none() {
        return numbers;
    }
    for digits in words.word().split(',') {
        if numbers.push(words.in64(digits)).is_err() {
            words.note(RowFault::NoMemory);
        }
    }
    numbers
}

/// The disks that are at hand, where no log of theirs is open.
#[derive(Drop)]
pub struct DisksAtHand {
    alloc: Global,
    disks: Option<Disks>,
}

impl DisksAtHand {
    /// None yet; takes no memory.
    pub fn new(alloc: Global) -> DisksAtHand {
        DisksAtHand { alloc, disks: None }
    }

    /// These disks.
    pub fn keep(&mut self, disk: MemoryDisk, spare: MemoryDisk) {
        self.disks = Some(Disks { disk, spare });
    }

    /// Takes the disks, where there are some.
    pub fn take(&mut self) -> Option<Disks> {
        self.disks.take()
    }

    /// Disks that were made, in place of all before.
    fn keep_made(&mut self, disks: Result<Disks, NoMemory>, answer: &mut Answer) {
        match disks {
            Err(_) => answer.want_memory(),
            Ok(disks) => {
                self.disks = Some(disks);
                answer.word("Ok");
            }
        }
    }

    /// New disks.
    fn begin(&mut self, words: &mut Words<'_>, answer: &mut Answer) {
        let disk = words.bytes();
        let spare = words.bytes();
        if words.end() {
            self.keep_made(Disks::new(self.alloc, disk, spare), answer);
        }
    }

    /// New disks of which calls fail.
    fn begin_failing(&mut self, words: &mut Words<'_>, answer: &mut Answer) {
        let (disk, spare) = (words.bytes(), words.bytes());
        let (failing, failing_spare) = (read_numbers(words), read_numbers(words));
        if !words.end() {
            return;
        }
        let Ok(disk) = MemoryDisk::new(self.alloc, disk, failing) else {
            return answer.want_memory();
        };
        let Ok(spare) = MemoryDisk::new(self.alloc, spare, failing_spare) else {
            return answer.want_memory();
        };
        self.keep(disk, spare);
        answer.word("Ok");
    }

    /// The disks crash, where there are some.
    pub fn crash_by(&mut self, choice: u32, answer: &mut Answer) {
        if choice > 3 {
            return answer.refuse();
        }
        match self.disks.take() {
            Some(disks) => self.keep_made(disks.crash(choice), answer),
            None => answer.refuse(),
        }
    }

    /// Has the disks crash.
    fn crash(&mut self, words: &mut Words<'_>, answer: &mut Answer) {
        let choice = words.number32();
        if words.end() {
            self.crash_by(choice, answer);
        }
    }

    /// What the disks hold.
    fn put_bytes(&self, words: &mut Words<'_>, answer: &mut Answer) {
        if !words.end() {
            return;
        }
        match &self.disks {
            Some(disks) => {
                answer.bytes(disks.disk_bytes());
                answer.bytes(disks.spare_bytes());
            }
            None => answer.refuse(),
        }
    }

    /// How many bytes the disks hold.
    fn put_lengths(&self, words: &mut Words<'_>, answer: &mut Answer) {
        if !words.end() {
            return;
        }
        match &self.disks {
            Some(disks) => {
                answer.number(disks.disk_bytes().len() as u64);
                answer.number(disks.spare_bytes().len() as u64);
            }
            None => answer.refuse(),
        }
    }

    /// Every call of the disks at hand fails behind so many more of its own.
    pub fn stop_by(&mut self, calls: u64, answer: &mut Answer) {
        match &mut self.disks {
            None => answer.refuse(),
            Some(disks) => {
                disks.stop_after(calls);
                answer.word("Ok");
            }
        }
    }

    /// A call on the disks.
    pub fn call(&mut self, name: &str, words: &mut Words<'_>, answer: &mut Answer) {
        match name {
            "disks" => self.begin(words, answer),
            "failing" => self.begin_failing(words, answer),
            "crash" => self.crash(words, answer),
            "bytes" => self.put_bytes(words, answer),
            "lengths" => self.put_lengths(words, answer),
            _ => answer.refuse(),
        }
    }
}
