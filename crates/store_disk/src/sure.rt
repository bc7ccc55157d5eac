//! A disk in memory, with no other side that could fail.

ghost use Rattle.std.specs.Prelude.{◌∷◌, ◌≡◌, ◌≢◌, ◌+◌, ◌-◌, ◌^◌, ◌<◌, ◌≤◌, min, length, drop, Some, Ok, Err, IfOk, OnOk, OnErr};
ghost use Rattle.rpc_record.specs.Stream.{counted};
ghost use Rattle.store_disk.specs.Disks.{CutsTo, IsImage, Measures, ReadsBytesAt, Syncs, WritesAt, goes_on, new_life, resized, synced_state, with_length, with_write};
ghost use Rattle.store_disk.specs.Crashes.{left_by};
ghost use Rattle.cluster_model.specs.Content.{overlay};

use crate::crash::{Tear, replay};
use crate::disk::Disk;
use crate::overlay::{overlay_onto, part_from, resize_to};
use crate::recorded::Recorded;
use ff_xdr::{Data, NoMemory};
use rpc_record::Failed;
use std::alloc::Global;
use std::marker::Model;

/// A disk in memory that fails only for want of memory. Clauses see it as its life.
#[derive(Drop)]
pub struct SureDisk {
    alloc: Global,
    // what it held at first
    start: Vec<u8>,
    // what a read gives
    bytes: Vec<u8>,
    calls: Vec<Recorded>,
}

impl Model for SureDisk {
    ghost use Rattle.std.specs.Prelude.{◌≡◌};
    ghost use Rattle.store_disk.specs.Disks.{DiskLife};

    ghost Value = { DiskLife };

    ghost use Rattle.store_disk.specs.MemoryDisks.{life_after};

    ghost view = { λ disk. life_after disk.start.items disk.calls.items };

    ghost invariant = { λ disk. (life_after disk.start.items disk.calls.items).now.seen ≡ disk.bytes.items };
}

impl SureDisk {
    /// A disk that holds these bytes, all of them synced. Memory is wanted for a copy of them.
    pub fn new(alloc: Global, bytes: Vec<u8>) -> Result<SureDisk, NoMemory>
        ensures { IfOk result (λ disk. disk ≡ new_life bytes.items) }
    {
        let start = Vec::from_slice(alloc, &bytes)?;
        Ok(SureDisk {
            alloc,
            start,
            bytes,
            calls: Vec::new(alloc),
        })
    }

    /// What a read gives.
    pub fn bytes(&self) -> &[u8]
        ensures { result.now ≡ self.now.now.seen }
    {
        &self.bytes
    }

    /// Notes that a write of `count` bytes at the byte `at` failed, and left the bytes as they were.
    pub fn lose_write(&mut self, at: u64, count: u64) -> Result<(), NoMemory>
        ensures ok { OnOk result (self.new ≡ goes_on self.old (with_write self.old.now at count self.old.now.seen)) }
        ensures err { OnErr result (self.new ≡ self.old) }
    {
        self.calls.push(Recorded::LostWrite { at, count })?;
        Ok(())
    }

    /// Notes that a change of the length failed, and left the bytes as they were.
    pub fn lose_cut(&mut self, to: u64) -> Result<(), NoMemory>
        ensures ok { OnOk result (self.new ≡ goes_on self.old (with_length self.old.now to self.old.now.seen)) }
        ensures err { OnErr result (self.new ≡ self.old) }
    {
        self.calls.push(Recorded::LostCut { to })?;
        Ok(())
    }

    /// What a crash leaves that tears each change so.
    pub fn left_by(&self, tear: Tear) -> Result<Vec<u8>, NoMemory>
        ensures exact { IfOk result (λ left. left.items ≡ left_by tear (self.now.now ∷ self.now.past)) }
        ensures image { IfOk result (λ left. IsImage self.now.now left.items) }
    {
        replay(self.alloc, &self.start, &self.calls, tear)
    }

    /// Puts the piece at the byte `at`, and notes it. All room is made before anything is changed.
    fn put(&mut self, at: u64, piece: &[u8]) -> Result<(), NoMemory>
        ensures within { OnOk result (at + length piece.now < 2 ^ 64) }
        ensures ok { OnOk result (self.new ≡ goes_on self.old (with_write self.old.now at (length piece.now) (overlay self.old.now.seen at piece.now))) }
        ensures err { OnErr result (self.new ≡ self.old) }
    {
        let bytes = Data::of(self.alloc, piece)?;
        self.calls.reserve(1)?;
        overlay_onto(&mut self.bytes, at, piece)?;
        self.calls.push(Recorded::Wrote { at, bytes })?;
        Ok(())
    }

    /// Makes the disk `to` bytes long, and notes it. All room is made before anything is changed.
    fn resize(&mut self, to: u64) -> Result<(), NoMemory>
        ensures ok { OnOk result (self.new ≡ goes_on self.old (with_length self.old.now to (resized self.old.now.seen to))) }
        ensures err { OnErr result (self.new ≡ self.old) }
    {
        self.calls.reserve(1)?;
        resize_to(&mut self.bytes, to)?;
        self.calls.push(Recorded::Cut { to })?;
        Ok(())
    }

    /// Notes a sync.
    fn note_sync(&mut self) -> Result<(), NoMemory>
        ensures ok { OnOk result (self.new ≡ goes_on self.old (synced_state self.old.now.seen)) }
        ensures err { OnErr result (self.new ≡ self.old) }
    {
        self.calls.push(Recorded::Synced)?;
        Ok(())
    }
}

impl Disk for SureDisk {
    ghost faults = { λ _. 0 };

    ghost told = { λ disk. Some disk };

    fn length(&mut self) -> Result<u64, Failed>
        ensures told { Measures (Some self.old) result }
        ensures same { Some self.new ≡ Some self.old }
        ensures faults { 0 ≡ counted result 0 }
        ensures sure { result ≡ Ok (length self.old.now.seen) }
    {
        Ok(self.bytes.len() as u64)
    }

    /// Gives as many bytes as the piece has room for or stand there, and leaves the rest of the piece as it was.
    fn read(&mut self, at: u64, piece: &mut [u8]) -> Result<usize, Failed>
        ensures within { IfOk result (λ n. n ≤ length piece.new) }
        ensures told { ReadsBytesAt (Some self.old) at piece.new result }
        ensures same { Some self.new ≡ Some self.old }
        ensures faults { 0 ≡ counted result 0 }
        ensures sure { result ≡ Ok (min (length piece.old) (length self.old.now.seen - at)) }
        ensures rest { IfOk result (λ n. drop n piece.new ≡ drop n piece.old) }
    {
        let found = part_from(&self.bytes, at);
        let count = piece.len().min(found.len());
        piece[..count].copy_from_slice(&found[..count]);
        Ok(count)
    }

    /// Fails only for want of memory.
    fn write_at(&mut self, at: u64, piece: &[u8]) -> Result<(), Failed>
        ensures within { OnOk result (at + length piece.now < 2 ^ 64) }
        ensures told { WritesAt (Some self.old) at piece.now result (Some self.new) }
        ensures faults { 0 ≡ counted result 0 }
        ensures sure { result ≢ Err Failed.Fault }
    {
        match self.put(at, piece) {
            Ok(()) => Ok(()),
            Err(_) => Err(Failed::NoMemory),
        }
    }

    /// Fails only for want of memory.
    fn cut(&mut self, length: u64) -> Result<(), Failed>
        ensures told { CutsTo (Some self.old) length result (Some self.new) }
        ensures faults { 0 ≡ counted result 0 }
        ensures sure { result ≢ Err Failed.Fault }
    {
        match self.resize(length) {
            Ok(()) => Ok(()),
            Err(_) => Err(Failed::NoMemory),
        }
    }

    /// Fails only for want of memory.
    fn sync(&mut self) -> Result<(), Failed>
        ensures told { Syncs (Some self.old) result (Some self.new) }
        ensures faults { 0 ≡ counted result 0 }
        ensures sure { result ≢ Err Failed.Fault }
    {
        match self.note_sync() {
            Ok(()) => Ok(()),
            Err(_) => Err(Failed::NoMemory),
        }
    }
}
