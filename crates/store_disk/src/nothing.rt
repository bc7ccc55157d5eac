//! A disk for a program that has none.

ghost use Rattle.std.specs.Prelude.{⊤, ◌≡◌, ◌+◌, ◌^◌, ◌<◌, ◌≤◌, None, Ok, IfOk, OnOk, length};
ghost use Rattle.rpc_record.specs.Stream.{counted};
ghost use Rattle.store_disk.specs.Disks.{CutsTo, Measures, ReadsBytesAt, Syncs, WritesAt};

use crate::disk::Disk;
use rpc_record::Failed;

/// A disk for a program that keeps nothing. It has no bytes, takes all that is written, keeps none of it and never
/// fails, but for want of memory for a place past the last.
#[derive(Drop)]
pub struct NoDisk;

impl Disk for NoDisk {
    ghost faults = { λ _. 0 };

    ghost told = { λ _. None };

    fn length(&mut self) -> Result<u64, Failed>
        ensures told { Measures None result }
        ensures same { ⊤ }
        ensures faults { 0 ≡ counted result 0 }
        ensures sure { result ≡ Ok 0 }
    {
        Ok(0)
    }

    fn read(&mut self, at: u64, piece: &mut [u8]) -> Result<usize, Failed>
        ensures within { IfOk result (λ n. n ≤ length piece.new) }
        ensures told { ReadsBytesAt None at piece.new result }
        ensures same { ⊤ }
        ensures faults { 0 ≡ counted result 0 }
        ensures sure { result ≡ Ok 0 }
    {
        let _ = (at, piece.len());
        Ok(0)
    }

    fn write_at(&mut self, at: u64, piece: &[u8]) -> Result<(), Failed>
        ensures within { OnOk result (at + length piece.now < 2 ^ 64) }
        ensures told { WritesAt None at piece.now result None }
        ensures faults { 0 ≡ counted result 0 }
        ensures sure { at + length piece.now < 2 ^ 64 → result ≡ Ok tt }
    {
        if at.checked_add(piece.len() as u64).is_none() {
            return Err(Failed::NoMemory);
        }
        Ok(())
    }

    fn cut(&mut self, length: u64) -> Result<(), Failed>
        ensures told { CutsTo None length result None }
        ensures faults { 0 ≡ counted result 0 }
        ensures sure { result ≡ Ok tt }
    {
        let _ = length;
        Ok(())
    }

    fn sync(&mut self) -> Result<(), Failed>
        ensures told { Syncs None result None }
        ensures faults { 0 ≡ counted result 0 }
        ensures sure { result ≡ Ok tt }
    {
        Ok(())
    }
}
