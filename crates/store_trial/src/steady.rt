//! A disk in memory of which no call is to fail.

ghost use Rattle.std.specs.Prelude.{◌≡◌, ◌+◌, ◌^◌, ◌<◌, ◌≤◌, [], None, Some, length, IfOk, OnOk};
ghost use Rattle.rpc_record.specs.Stream.{counted};
ghost use Rattle.store_disk.specs.Disks.{CutsTo, Measures, ReadsBytesAt, Syncs, WritesAt};

use rpc_record::Failed;
use std::marker::Model;
use store_disk::{Disk, MemoryDisk};

/// A disk in memory of which no call is to fail, so that its calls want memory and nothing else.
#[derive(Drop)]
pub struct SteadyDisk {
    disk: MemoryDisk,
}

impl Model for SteadyDisk {
    ghost use Rattle.std.specs.Prelude.{◌≡◌, [], None};
    ghost use Rattle.store_disk.specs.MemoryDisks.{MemoryDiskState};

    ghost Value = { MemoryDiskState };

    ghost view = { λ steady. steady.disk };

    ghost invariant = { λ steady. (steady.disk.failing ≡ []) × (steady.disk.stop ≡ None) };
}

impl SteadyDisk {
    /// A disk of which no call is to fail.
    pub fn new(disk: MemoryDisk) -> SteadyDisk
        requires { (disk.failing ≡ []) × (disk.stop ≡ None) }
        ensures { result ≡ disk }
    {
        SteadyDisk { disk }
    }

    /// The disk.
    pub fn into_disk(self) -> MemoryDisk
        ensures { result ≡ self }
    {
        self.disk
    }
}

impl Disk for SteadyDisk {
    // (none of its calls is a fault, so that there is nothing to count)
    ghost faults = { λ _. 0 };

    ghost told = { λ steady. Some steady.life };

    fn length(&mut self) -> Result<u64, Failed>
        ensures told { Measures (Some self.old.life) result }
        ensures same { Some self.new.life ≡ Some self.old.life }
        ensures faults { 0 ≡ counted result 0 }
    {
        self.disk.length()
    }

    fn read(&mut self, at: u64, piece: &mut [u8]) -> Result<usize, Failed>
        ensures within { IfOk result (λ n. n ≤ length piece.new) }
        ensures told { ReadsBytesAt (Some self.old.life) at piece.new result }
        ensures same { Some self.new.life ≡ Some self.old.life }
        ensures faults { 0 ≡ counted result 0 }
    {
        self.disk.read(at, piece)
    }

    fn write_at(&mut self, at: u64, piece: &[u8]) -> Result<(), Failed>
        ensures within { OnOk result (at + length piece.now < 2 ^ 64) }
        ensures told { WritesAt (Some self.old.life) at piece.now result (Some self.new.life) }
        ensures faults { 0 ≡ counted result 0 }
    {
        self.disk.write_at(at, piece)
    }

    fn cut(&mut self, length: u64) -> Result<(), Failed>
        ensures told { CutsTo (Some self.old.life) length result (Some self.new.life) }
        ensures faults { 0 ≡ counted result 0 }
    {
        self.disk.cut(length)
    }

    fn sync(&mut self) -> Result<(), Failed>
        ensures told { Syncs (Some self.old.life) result (Some self.new.life) }
        ensures faults { 0 ≡ counted result 0 }
    {
        self.disk.sync()
    }
}
