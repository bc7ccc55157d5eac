//! A source and a sink over memory, with no other side that could fail.
ghost use Rattle.std.specs.Prelude.{◌≡◌, ◌≢◌, ℕ, ◌-◌, ◌<◌, ◌≤◌, min, List, [], ◌++◌, length, take, drop, Some, Ok, Err, IfOk};
ghost use Rattle.rpc_record.specs.Stream.{counted, Reads, Writes};

use crate::{Failed, Sink, Source};
use std::alloc::Global;
use std::marker::Model;

/// A source that gives the bytes of a `Vec` and never fails. Clauses see it as the bytes that are
/// left.
#[derive(Drop)]
pub struct SureSource {
    bytes: Vec<u8>,
    taken: usize,
}

impl Model for SureSource {
    ghost Value = { List ℕ };

    ghost view = { λ source. drop source.taken source.bytes.items };

    ghost invariant = { λ source. source.taken ≤ length source.bytes.items };
}

impl SureSource {
    /// A source of these bytes.
    pub fn new(bytes: Vec<u8>) -> SureSource
        ensures { result ≡ bytes.items }
    {
        SureSource { bytes, taken: 0 }
    }
}

impl Source for SureSource {
    ghost faults = { λ _. 0 };

    ghost left = { λ source. Some source };

    /// Gives as many bytes as the piece has room for or are left, and leaves the rest of the piece as
    /// it was.
    fn read(&mut self, piece: &mut [u8]) -> Result<usize, Failed>
        ensures within { IfOk result (λ n. n ≤ length piece.new) }
        ensures told { Reads (Some self.old) piece.new result (Some self.new) }
        ensures faults { 0 ≡ counted result 0 }
        ensures sure { result ≡ Ok (min (length piece.old) (length self.old)) }
        ensures rest { IfOk result (λ n. drop n piece.new ≡ drop n piece.old) }
    {
        let count = piece.len().min(self.bytes.len() - self.taken);
        piece[..count].copy_from_slice(&self.bytes[self.taken..self.taken + count]);
        self.taken += count;
        Ok(count)
    }
}

/// A sink that holds what is written to it, and fails only for want of memory. Clauses see it as the
/// bytes that it holds.
#[derive(Drop)]
pub struct SureSink {
    bytes: Vec<u8>,
}

impl Model for SureSink {
    ghost Value = { List ℕ };

    ghost view = { λ sink. sink.bytes.items };
}

impl SureSink {
    /// A sink that holds nothing yet, and takes its memory from `alloc`.
    pub fn new(alloc: Global) -> SureSink
        ensures { result ≡ [] }
    {
        SureSink {
            bytes: Vec::new(alloc),
        }
    }

    /// The bytes that it holds.
    pub fn bytes(&self) -> &[u8]
        ensures { result.now ≡ self.now }
    {
        &self.bytes
    }
}

impl Sink for SureSink {
    ghost faults = { λ _. 0 };

    ghost held = { λ sink. Some sink };

    /// Takes the whole piece, or answers `Failed::NoMemory` and holds what it held.
    fn write(&mut self, piece: &[u8]) -> Result<usize, Failed>
        ensures within { IfOk result (λ n. n ≤ length piece.now) }
        ensures takes { IfOk result (λ n. 0 < length piece.now → 0 < n) }
        ensures told { Writes (Some self.old) piece.now result (Some self.new) }
        ensures faults { 0 ≡ counted result 0 }
        ensures sure { result ≢ Err Failed.Fault }
        ensures whole { IfOk result (λ n. n ≡ length piece.now) }
    {
        match self.bytes.extend_from_slice(piece) {
            Ok(()) => Ok(piece.len()),
            Err(_) => Err(Failed::NoMemory),
        }
    }
}
