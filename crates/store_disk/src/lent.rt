//! A disk that is lent.

use crate::disk::Disk;
use rpc_record::Failed;

impl<D: Disk> Disk for &mut D {
    ghost faults = { λ disk. D.faults disk.now };

    ghost told = { λ disk. D.told disk.now };

    fn length(&mut self) -> Result<u64, Failed> {
        Disk::length(&mut **self)
    }

    fn read(&mut self, at: u64, piece: &mut [u8]) -> Result<usize, Failed> {
        Disk::read(&mut **self, at, piece)
    }

    fn write_at(&mut self, at: u64, piece: &[u8]) -> Result<(), Failed> {
        Disk::write_at(&mut **self, at, piece)
    }

    fn cut(&mut self, length: u64) -> Result<(), Failed> {
        Disk::cut(&mut **self, length)
    }

    fn sync(&mut self) -> Result<(), Failed> {
        Disk::sync(&mut **self)
    }
}
