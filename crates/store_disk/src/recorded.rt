//! What a disk in memory notes of its calls.

use ff_xdr::Data;

/// A call that changed a disk, or failed and left the bytes as they were.
#[derive(Drop)]
pub enum Recorded {
    /// These bytes were written at the byte `at`.
    Wrote { at: u64, bytes: Data },
    /// A write of `count` bytes at the byte `at` failed.
    LostWrite { at: u64, count: u64 },
    /// The disk was made `to` bytes long.
    Cut { to: u64 },
    /// A change of the length to `to` bytes failed.
    LostCut { to: u64 },
    /// All was synced.
    Synced,
}
