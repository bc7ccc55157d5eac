//! What gives bytes and what takes them.
ghost use Rattle.std.specs.Prelude.{◌≡◌, ℕ, ◌<◌, ◌≤◌, List, Option, length, IfOk};
ghost use Rattle.rpc_record.specs.Stream.{counted, Reads, Writes};

use thiserror::Error;

/// Why a call on a source or a sink failed.
#[derive(Clone, Copy, Debug, PartialEq, Eq, Error)]
pub enum Failed {
    /// The other side failed. The stream counts it.
    #[error("the other side failed")]
    Fault,
    /// Memory was wanted. Nothing was done, and no fault is counted.
    #[error("memory was wanted")]
    NoMemory,
}

/// A source of bytes, read a piece at a time.
pub trait Source {
    /// How many calls have met a fault of the other side. The count stands still at `u64::MAX`.
    ghost faults: { Self → ℕ };

    /// The bytes that reads will give from here on, where the source tells them.
    ghost left: { Self → Option (List ℕ) };

    /// Puts bytes at the front of `piece`, and returns how many: from 1 to the piece's length, or
    /// fewer, and 0 only at the end of the bytes or for an empty piece.
    ///
    /// An error takes no byte from a source that tells. `Failed::Fault` is counted.
    fn read(&mut self, piece: &mut [u8]) -> Result<usize, Failed>
        ensures within { IfOk result (λ n. n ≤ length piece.new) }
        ensures told { Reads (left self.old) piece.new result (left self.new) }
        ensures faults { faults self.new ≡ counted result (faults self.old) };
}

/// A sink of bytes, written a piece at a time.
pub trait Sink {
    /// How many calls have met a fault of the other side. The count stands still at `u64::MAX`.
    ghost faults: { Self → ℕ };

    /// The bytes that were taken so far, where the sink tells them.
    ghost held: { Self → Option (List ℕ) };

    /// Takes bytes from the front of `piece`, and returns how many: at least one, unless the piece is
    /// empty.
    ///
    /// An error adds no byte to a sink that tells. `Failed::Fault` is counted.
    fn write(&mut self, piece: &[u8]) -> Result<usize, Failed>
        ensures within { IfOk result (λ n. n ≤ length piece.now) }
        ensures takes { IfOk result (λ n. 0 < length piece.now → 0 < n) }
        ensures told { Writes (held self.old) piece.now result (held self.new) }
        ensures faults { faults self.new ≡ counted result (faults self.old) };
}
