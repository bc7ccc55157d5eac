//! A disk.

ghost use Rattle.std.specs.Prelude.{◌≡◌, ℕ, ◌+◌, ◌^◌, ◌<◌, ◌≤◌, Option, length, IfOk, OnOk};
ghost use Rattle.rpc_record.specs.Stream.{counted};
ghost use Rattle.store_disk.specs.Disks.{CutsTo, DiskLife, Measures, ReadsBytesAt, Syncs, WritesAt};

use rpc_record::Failed;

/// A file that keeps what it took over a crash, as far as it was synced.
pub trait Disk {
    /// How many calls have met a fault of the other side. The count stands still at `u64::MAX`.
    ghost faults: { Self → ℕ };

    /// How it stands and stood, where it tells: what a read gives, and what a crash may leave. No call changes whether
    /// it tells.
    ghost told: { Self → Option DiskLife };

    /// How many bytes it has. `Failed::Fault` is counted.
    fn length(&mut self) -> Result<u64, Failed>
        ensures told { Measures (told self.old) result }
        ensures same { told self.new ≡ told self.old }
        ensures faults { faults self.new ≡ counted result (faults self.old) };

    /// Puts bytes from the byte `at` on at the front of `piece`, and returns how many: from 1 to the piece's length,
    /// or fewer, and 0 only where the disk ends at or before `at`, or for an empty piece. `Failed::Fault` is counted.
    fn read(&mut self, at: u64, piece: &mut [u8]) -> Result<usize, Failed>
        ensures within { IfOk result (λ n. n ≤ length piece.new) }
        ensures told { ReadsBytesAt (told self.old) at piece.new result }
        ensures same { told self.new ≡ told self.old }
        ensures faults { faults self.new ≡ counted result (faults self.old) };

    /// Puts the piece at the byte `at`, with zeros in a gap before it. Until a sync a crash may leave any bytes in its
    /// range, and past the old end. A fault is counted, and may have left the same; one whose end would pass
    /// 18,446,744,073,709,551,615 is a fault or want of memory. For want of memory nothing is done.
    fn write_at(&mut self, at: u64, piece: &[u8]) -> Result<(), Failed>
        ensures within { OnOk result (at + length piece.now < 2 ^ 64) }
        ensures told { WritesAt (told self.old) at piece.now result (told self.new) }
        ensures faults { faults self.new ≡ counted result (faults self.old) };

    /// Makes the disk `length` bytes long, with zeros behind its old end. Until a sync a crash may leave any length
    /// between. A fault is counted, and may have left the same. For want of memory nothing is done.
    fn cut(&mut self, length: u64) -> Result<(), Failed>
        ensures told { CutsTo (told self.old) length result (told self.new) }
        ensures faults { faults self.new ≡ counted result (faults self.old) };

    /// Makes sure of all that was written: a crash leaves it. A fault is counted, and makes sure of nothing.
    fn sync(&mut self) -> Result<(), Failed>
        ensures told { Syncs (told self.old) result (told self.new) }
        ensures faults { faults self.new ≡ counted result (faults self.old) };
}
