//! A stream over memory, which gives and takes in chosen pieces.

ghost use Rattle.std.specs.Prelude.{◌≡◌, ◌↔◌, ◌⊎◌, ℕ, ◌+◌, ◌<◌, ◌≤◌, ◌++◌, min, List, [], length, drop, Some, Ok, Err, IfOk, IfErr, true, false};
ghost use Rattle.record_link.specs.Stream.{ReadsStream, WritesStream, lost_more};
ghost use Rattle.rpc_record.specs.Stream.{one_more};
ghost use Rattle.record_link.specs.Memory.{MemoryState, size_of, is_cut, read_size};

use crate::stream::{Halt, Stream};
use std::alloc::Global;
use std::collections::VecDeque;
use std::marker::Model;

/// A stream that gives the bytes of a `Vec` and holds what is written to it. Each call of `read` and
/// `write` moves no more bytes than the next of its sizes says; where that is 0 it would block, and
/// behind the last of them there is no limit, or the stream is cut off.
#[derive(Drop)]
pub struct MemoryStream {
    bytes: Vec<u8>,
    taken: usize,
    gone: Vec<u8>,
    sizes: VecDeque<usize>,
    cut: bool,
    faults: u64,
}

impl Model for MemoryStream {
    ghost Value = { MemoryState };

    ghost view = { λ m. record { coming = drop m.taken m.bytes.items; gone = m.gone.items; sizes = m.sizes.items; cut = m.cut; faults = m.faults } };

    ghost invariant = { λ m. m.taken ≤ length m.bytes.items };
}

impl MemoryStream {
    /// A stream that gives these bytes, with these sizes. It takes its memory from `alloc`.
    pub fn new(alloc: Global, bytes: Vec<u8>, sizes: Vec<usize>) -> MemoryStream
        ensures { result ≡ record { coming = bytes.items; gone = []; sizes = sizes.items; cut = false; faults = 0 } }
    {
        MemoryStream {
            bytes,
            taken: 0,
            gone: Vec::new(alloc),
            sizes: VecDeque::from_vec(sizes),
            cut: false,
            faults: 0,
        }
    }

    /// The same, which is cut off behind these sizes: each later call finds it of no use.
    pub fn cut_off(alloc: Global, bytes: Vec<u8>, sizes: Vec<usize>) -> MemoryStream
        ensures { result ≡ record { coming = bytes.items; gone = []; sizes = sizes.items; cut = true; faults = 0 } }
    {
        MemoryStream {
            cut: true,
            ..MemoryStream::new(alloc, bytes, sizes)
        }
    }

    /// It is cut off.
    fn is_cut(&self) -> bool
        ensures { result ≡ is_cut self.now }
    {
        self.cut && self.sizes.is_empty()
    }

    /// A call that finds it cut off.
    fn lose(&mut self) -> Halt
        ensures result { result ≡ Halt.Lost }
        ensures counted { self.new ≡ record self.old { faults = one_more self.old.faults } }
    {
        self.faults = self.faults.saturating_add(1);
        Halt::Lost
    }

    /// What was written.
    pub fn gone(&self) -> &[u8]
        ensures { result.now ≡ self.now.gone }
    {
        &self.gone
    }
}

/// Takes the next size off the list, where there is one.
fn next_size(sizes: &mut VecDeque<usize>, most: usize) -> usize
    ensures size { result ≡ size_of sizes.old.items most }
    ensures rest { sizes.new.items ≡ drop 1 sizes.old.items }
{
    match sizes.pop_front() {
        Some(size) => size.min(most),
        None => most,
    }
}

impl Stream for MemoryStream {
    ghost coming = { λ memory. Some memory.coming };

    ghost gone = { λ memory. Some memory.gone };

    ghost faults = { λ memory. memory.faults };

    /// Is lost where it is cut off, has ended where no bytes are left, would block where the next size is 0, and else gives as many
    /// as are left, as the piece has room for and as the size says.
    fn read(&mut self, piece: &mut [u8]) -> Result<usize, Halt>
        ensures some { IfOk result (λ n. 0 < n) }
        ensures within { IfOk result (λ n. n ≤ length piece.new) }
        ensures told { ReadsStream (Some self.old.coming) piece.new result (Some self.new.coming) }
        ensures gone { Some self.new.gone ≡ Some self.old.gone }
        ensures faults { self.new.faults ≡ lost_more result self.old.faults }
        ensures exact { result ≡ read_size self.old (length piece.old) }
        ensures sizes { self.new.sizes ≡ drop 1 self.old.sizes }
    {
        if self.is_cut() {
            return Err(self.lose());
        }
        let left = self.bytes.len() - self.taken;
        let count = next_size(&mut self.sizes, piece.len().min(left));
        if left == 0 {
            return Err(Halt::Ended);
        }
        if count == 0 {
            return Err(Halt::WouldBlock);
        }
        piece[..count].copy_from_slice(&self.bytes[self.taken..self.taken + count]);
        self.taken += count;
        Ok(count)
    }

    /// Is lost where it is cut off, would block where the next size is 0, and else takes as many bytes of
    /// the first piece as the size says, or answers `Halt::NoMemory`.
    fn write(&mut self, first: &[u8], second: &[u8]) -> Result<usize, Halt>
        ensures some { IfOk result (λ n. 0 < n) }
        ensures within { IfOk result (λ n. n ≤ length first.now + length second.now) }
        ensures told { WritesStream (Some self.old.gone) (first.now ++ second.now) result (Some self.new.gone) }
        ensures coming { Some self.new.coming ≡ Some self.old.coming }
        ensures faults { self.new.faults ≡ lost_more result self.old.faults }
        ensures exact { IfOk result (λ n. n ≡ size_of self.old.sizes (length first.now)) }
        ensures blocks { (result ≡ Err Halt.WouldBlock) ↔ ((is_cut self.old ≡ false) × (size_of self.old.sizes (length first.now) ≡ 0)) }
        ensures lost { (result ≡ Err Halt.Lost) ↔ (is_cut self.old ≡ true) }
        ensures sure { IfErr result (λ e. e ≡ Halt.Ended → ⊥) }
        ensures sizes { self.new.sizes ≡ drop 1 self.old.sizes }
    {
        if self.is_cut() {
            return Err(self.lose());
        }
        let count = next_size(&mut self.sizes, first.len());
        if count == 0 {
            return Err(Halt::WouldBlock);
        }
        match self.gone.extend_from_slice(&first[..count]) {
            Ok(()) => Ok(count),
            Err(_) => Err(Halt::NoMemory),
        }
    }
}
