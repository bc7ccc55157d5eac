//! What carries bytes both ways.

ghost use Rattle.std.specs.Prelude.{◌≡◌, ℕ, ◌+◌, ◌<◌, ◌≤◌, ◌++◌, List, Option, length, IfOk};
ghost use Rattle.record_link.specs.Stream.{ReadsStream, WritesStream, lost_more};

use ff_xdr::NoMemory;
use thiserror::Error;

/// Why a call on a stream did nothing.
#[derive(Clone, Copy, Debug, PartialEq, Eq, Error)]
pub enum Halt {
    /// Nothing can be read or written now, and later it may.
    #[error("nothing can be read or written now")]
    WouldBlock,
    /// The other side gives no more bytes.
    #[error("the other side gives no more bytes")]
    Ended,
    /// The stream is of no use any more.
    #[error("the stream is of no use any more")]
    Lost,
    /// Memory was wanted.
    #[error("memory was wanted")]
    NoMemory,
}

impl From<NoMemory> for Halt {
    ghost use Rattle.record_link.specs.declared.stream.Halt.{Halt};

    ghost from_gives = { λ _ halt. halt ≡ Halt.NoMemory };

    fn from(_e: NoMemory) -> Halt {
        Halt::NoMemory
    }
}

/// A stream of bytes, both ways, on which no call waits.
pub trait Stream {
    /// The bytes that reads will give from here on, where the stream tells them.
    ghost coming: { Self → Option (List ℕ) };

    /// The bytes that were taken so far, where the stream tells them.
    ghost gone: { Self → Option (List ℕ) };

    /// How many calls found it to be of no use any more. The count stands still at `u64::MAX`.
    ghost faults: { Self → ℕ };

    /// Puts the next bytes at the front of `piece`, which is not empty, and returns how many, at
    /// least one. An error takes no byte, and `Halt::Lost` is counted.
    fn read(&mut self, piece: &mut [u8]) -> Result<usize, Halt>
        requires { 0 < length piece.old }
        ensures some { IfOk result (λ n. 0 < n) }
        ensures within { IfOk result (λ n. n ≤ length piece.new) }
        ensures told { ReadsStream (coming self.old) piece.new result (coming self.new) }
        ensures gone { gone self.new ≡ gone self.old }
        ensures faults { faults self.new ≡ lost_more result (faults self.old) };

    /// Takes bytes from the front of `first`, which is not empty, and then of `second`, and returns
    /// how many, at least one. An error takes no byte, and `Halt::Lost` is counted.
    fn write(&mut self, first: &[u8], second: &[u8]) -> Result<usize, Halt>
        requires { 0 < length first.now }
        ensures some { IfOk result (λ n. 0 < n) }
        ensures within { IfOk result (λ n. n ≤ length first.now + length second.now) }
        ensures told { WritesStream (gone self.old) (first.now ++ second.now) result (gone self.new) }
        ensures coming { coming self.new ≡ coming self.old }
        ensures faults { faults self.new ≡ lost_more result (faults self.old) };
}
