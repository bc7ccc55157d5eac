//! A disk in memory, in which chosen calls fail.

ghost use Rattle.std.specs.Prelude.{◌↔◌, ◌≡◌, ◌+◌, ◌-◌, ◌^◌, ◌<◌, ◌≤◌, min, length, None, Some, Ok, Err, IfOk, OnOk, IsTrue, MatchResult, drop, if◌then◌else◌};
ghost use Rattle.rpc_record.specs.Stream.{counted};
ghost use Rattle.store_disk.specs.Disks.{CutsTo, IsImage, Measures, ReadsBytesAt, Syncs, WritesAt, new_life, with_length, with_write};
ghost use Rattle.store_disk.specs.Crashes.{crashed, tear_of};
ghost use Rattle.store_disk.specs.MemoryDisks.{FailsBy, LeavesBytes, LosesChange, MakesCall, is_to_fail};

use crate::crash::Tear;
use crate::disk::Disk;
use crate::schedule::Schedule;
use crate::sure::SureDisk;
use ff_xdr::NoMemory;
use rpc_record::Failed;
use std::alloc::Global;
use std::marker::Model;

/// A disk in memory, in which chosen calls fail. One that fails leaves the bytes as they were.
#[derive(Drop)]
pub struct MemoryDisk {
    alloc: Global,
    disk: SureDisk,
    schedule: Schedule,
}

impl Model for MemoryDisk {
    ghost use Rattle.store_disk.specs.MemoryDisks.{MemoryDiskState};

    ghost Value = { MemoryDiskState };

    ghost view = { λ memory. record {
      life = memory.disk;
      failing = memory.schedule.failing.items;
      stop = memory.schedule.stop;
      calls = memory.schedule.calls;
      faults = memory.schedule.faults;
    } };
}

impl MemoryDisk {
    /// A disk that holds these bytes, all of them synced. `failing` are the numbers of the calls, from 1 and of all five
    /// together, that answer `Failed::Fault` and leave the bytes as they were.
    pub fn new(alloc: Global, bytes: Vec<u8>, failing: Vec<u64>) -> Result<MemoryDisk, NoMemory>
        ensures { IfOk result (λ disk. disk ≡ record { life = new_life bytes.items; failing = failing.items; stop = None; calls = 0; faults = 0 }) }
    {
        let disk = SureDisk::new(alloc, bytes)?;
        Ok(MemoryDisk {
            alloc,
            disk,
            schedule: Schedule::new(failing),
        })
    }

    /// Behind so many further calls every call fails.
    pub fn stop_after(&mut self, calls: u64)
        ensures { self.new ≡ record self.old { stop = Some (min (self.old.calls + calls) (2 ^ 64 - 1)) } }
    {
        self.schedule.stop_after(calls);
    }

    /// A new disk, of which no call fails, with what a crash now may leave, all of it synced. Each range that was written
    /// since the last sync is as before (0), as written (1), written in its first half (2), or all bytes are 255 (3).
    /// Changes of the length are done but in 0, also those that failed.
    pub fn crash(self, choice: u32) -> Result<MemoryDisk, NoMemory>
        requires { choice < 4 }
        ensures exact { IfOk result (λ disk. disk ≡ crashed self (tear_of choice)) }
        ensures image { IfOk result (λ disk. IsImage self.life.now disk.life.now.seen) }
    {
        let alloc = self.alloc;
        let bytes = self.disk.left_by(Tear::of(choice))?;
        MemoryDisk::new(alloc, bytes, Vec::new(alloc))
    }

    /// What a read gives.
    pub fn bytes(&self) -> &[u8]
        ensures { result.now ≡ self.now.life.now.seen }
    {
        self.disk.bytes()
    }

    /// Loses a write, and leaves the bytes as they were.
    fn lose_write(&mut self, at: u64, count: u64) -> Result<(), Failed>
        ensures { LosesChange self.old (with_write self.old.life.now at count self.old.life.now.seen) result self.new }
    {
        match self.disk.lose_write(at, count) {
            Ok(()) => {
                self.schedule.count_fault();
                Err(Failed::Fault)
            }
            Err(_) => Err(Failed::NoMemory),
        }
    }

    /// Loses a change of the length, and leaves the bytes as they were.
    fn lose_cut(&mut self, to: u64) -> Result<(), Failed>
        ensures { LosesChange self.old (with_length self.old.life.now to self.old.life.now.seen) result self.new }
    {
        match self.disk.lose_cut(to) {
            Ok(()) => {
                self.schedule.count_fault();
                Err(Failed::Fault)
            }
            Err(_) => Err(Failed::NoMemory),
        }
    }

    /// How many calls have failed.
    pub fn faults(&self) -> u64
        ensures { result ≡ self.now.faults }
    {
        self.schedule.faults
    }
}

impl Disk for MemoryDisk {
    ghost faults = { λ memory. memory.faults };

    ghost told = { λ memory. Some memory.life };

    /// Fails where it is to fail.
    fn length(&mut self) -> Result<u64, Failed>
        ensures told { Measures (Some self.old.life) result }
        ensures same { Some self.new.life ≡ Some self.old.life }
        ensures faults { self.new.faults ≡ counted result self.old.faults }
        ensures exact { result ≡ (if is_to_fail self.old.failing self.old.stop self.old.calls then Err Failed.Fault else Ok (length self.old.life.now.seen)) }
        ensures calls { MakesCall self.old self.new }
    {
        if self.schedule.begin_call() {
            self.schedule.count_fault();
            return Err(Failed::Fault);
        }
        self.disk.length()
    }

    /// Fails where it is to fail, and leaves the piece then.
    fn read(&mut self, at: u64, piece: &mut [u8]) -> Result<usize, Failed>
        ensures within { IfOk result (λ n. n ≤ length piece.new) }
        ensures told { ReadsBytesAt (Some self.old.life) at piece.new result }
        ensures same { Some self.new.life ≡ Some self.old.life }
        ensures faults { self.new.faults ≡ counted result self.old.faults }
        ensures exact { result ≡ (if is_to_fail self.old.failing self.old.stop self.old.calls then Err Failed.Fault else Ok (min (length piece.old) (length self.old.life.now.seen - at))) }
        ensures rest { MatchResult result (λ n. drop n piece.new ≡ drop n piece.old) (λ _. piece.new ≡ piece.old) }
        ensures calls { MakesCall self.old self.new }
    {
        if self.schedule.begin_call() {
            self.schedule.count_fault();
            return Err(Failed::Fault);
        }
        self.disk.read(at, piece)
    }

    /// Fails where it is to fail, or for want of memory. One that fails leaves the bytes.
    fn write_at(&mut self, at: u64, piece: &[u8]) -> Result<(), Failed>
        ensures within { OnOk result (at + length piece.now < 2 ^ 64) }
        ensures told { WritesAt (Some self.old.life) at piece.now result (Some self.new.life) }
        ensures faults { self.new.faults ≡ counted result self.old.faults }
        ensures fails { FailsBy (is_to_fail self.old.failing self.old.stop self.old.calls) result }
        ensures calls { MakesCall self.old self.new }
        ensures lost { LeavesBytes self.old.life result self.new.life }
    {
        if self.schedule.begin_call() {
            return self.lose_write(at, piece.len() as u64);
        }
        self.disk.write_at(at, piece)
    }

    /// Fails where it is to fail, or for want of memory. One that fails leaves the bytes.
    fn cut(&mut self, length: u64) -> Result<(), Failed>
        ensures told { CutsTo (Some self.old.life) length result (Some self.new.life) }
        ensures faults { self.new.faults ≡ counted result self.old.faults }
        ensures fails { FailsBy (is_to_fail self.old.failing self.old.stop self.old.calls) result }
        ensures calls { MakesCall self.old self.new }
        ensures lost { LeavesBytes self.old.life result self.new.life }
    {
        if self.schedule.begin_call() {
            return self.lose_cut(length);
        }
        self.disk.cut(length)
    }

    /// Fails where it is to fail, or for want of memory.
    fn sync(&mut self) -> Result<(), Failed>
        ensures told { Syncs (Some self.old.life) result (Some self.new.life) }
        ensures faults { self.new.faults ≡ counted result self.old.faults }
        ensures fails { IsTrue (is_to_fail self.old.failing self.old.stop self.old.calls) ↔ (result ≡ Err Failed.Fault) }
        ensures calls { MakesCall self.old self.new }
    {
        if self.schedule.begin_call() {
            self.schedule.count_fault();
            return Err(Failed::Fault);
        }
        self.disk.sync()
    }
}
