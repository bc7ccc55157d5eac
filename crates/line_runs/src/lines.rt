//! Reading lines through a buffer.
ghost use Rattle.std.specs.Prelude.{◌≡◌, ◌≢◌, ℕ, ◌+◌, ◌-◌, ◌<◌, ◌≤◌, ◌↔◌, IsTrue, true, List, [], ◌++◌, length, Ok, Err, is_ok, IfOk, IfErr, MatchBool, if◌then◌else◌};
ghost use Rattle.rpc_record.specs.Stream.{counted, Reads};
ghost use Rattle.line_runs.specs.Lines.{HoldsLine, HoldsNoLine, IsWithinBudget, MovesOut, ReadsLine, Refills, TakesLine, all_left};

use memchr::memchr;
use rpc_record::{Failed, Source};
use std::alloc::{AllocError, Global};
use std::marker::Model;

/// How many bytes are asked of a source at once.
const PIECE: usize = 65_536;

/// How a line ended.
#[derive(Clone, Copy, Debug, PartialEq, Eq)]
pub enum Ended {
    /// In a newline, which was taken.
    Newline,
    /// At the end of the bytes, with no newline.
    End,
    /// It runs past the budget.
    PastBudget,
}

/// The bytes that were read from a source and not yet taken. Clauses see them as a list.
#[derive(Drop)]
pub struct LineBuffer {
    piece: Vec<u8>,
    start: usize,
    end: usize,
}

impl Model for LineBuffer {
    ghost use Rattle.std.specs.Prelude.{ℕ, ◌<◌, ◌≤◌, List, length, slice_range};

    ghost Value = { List ℕ };

    ghost view = { λ buffer. slice_range buffer.piece.items buffer.start buffer.end };

    ghost invariant = { λ buffer. (buffer.start ≤ buffer.end) × (buffer.end ≤ length buffer.piece.items) × (0 < length buffer.piece.items) };
}

impl LineBuffer {
    /// A buffer that holds no byte yet, with its memory from `alloc`.
    pub fn new(alloc: Global) -> Result<LineBuffer, AllocError>
        ensures { IfOk result (λ buffer. buffer ≡ []) }
    {
        Ok(LineBuffer {
            piece: vec![in alloc; 0; PIECE]?,
            start: 0,
            end: 0,
        })
    }

    /// A newline is among the bytes that are held, so the next line is read without asking a source.
    pub fn holds_line(&self) -> bool
        ensures { MatchBool result (HoldsLine self.now) (HoldsNoLine self.now) }
    {
        memchr(b'\n', &self.piece[self.start..self.end]).is_some()
    }

    /// Reads the next line into `line`, without its newline, from the bytes that are held and then from
    /// `source`. `budget` is how many bytes the line and its newline may have at most.
    ///
    /// `Ended::End` with an empty line is the end of the bytes. `Ended::PastBudget` is a line that runs past
    /// the budget, and an error one of the source's or of memory: then `line` is its beginning, and no
    /// byte is lost. Where the source failed, `line` has all that was read, and no byte is held.
    pub fn read_line<S: Source>(
        &mut self,
        source: &mut S,
        budget: usize,
        line: &mut Vec<u8>,
    ) -> Result<Ended, Failed>
        ensures told { ReadsLine budget self.old (S.left source.old) result line.new.items self.new (S.left source.new) }
        ensures within { IfOk result (λ ended_course. IsWithinBudget budget ended_course line.new.items) }
        ensures faults { S.faults source.new ≡ counted result (S.faults source.old) }
        ensures unasked { HoldsLine self.old → source.new ≡ source.old }
        ensures asks { HoldsLine self.old → result ≢ Err Failed.Fault }
    {
        line.clear();
        'pieces: while self.refill(source)? {
            if let Some(ended) = self.take_line(budget - line.len(), line)? {
                return Ok(ended);
            }
        }
        Ok(Ended::End)
    }

    /// Reads bytes that are no lines any more: those that are held, and behind them those of `source`. Puts
    /// them at the front of `piece` and returns how many: 0 only at the end, or for an empty piece.
    pub fn read<S: Source>(&mut self, source: &mut S, piece: &mut [u8]) -> Result<usize, Failed>
        ensures within { IfOk result (λ n. n ≤ length piece.new) }
        ensures told { Reads (all_left self.old (S.left source.old)) piece.new result (all_left self.new (S.left source.new)) }
        ensures faults { S.faults source.new ≡ counted result (S.faults source.old) }
    {
        if self.start == self.end {
            return source.read(piece);
        }
        Ok(self.move_out(piece))
    }

    /// Moves held bytes out, as many as there are and the piece has room for.
    fn move_out(&mut self, piece: &mut [u8]) -> usize
        ensures within { result ≤ length piece.new }
        ensures moves { MovesOut self.old piece.new result self.new }
        ensures some { 0 < length self.old → 0 < length piece.new → 0 < result }
    {
        let count = piece.len().min(self.end - self.start);
        piece[..count].copy_from_slice(&self.piece[self.start..self.start + count]);
        self.start += count;
        count
    }

    /// Reads a piece if no byte is held, and returns whether one is held then. None is only at the end.
    fn refill<S: Source>(&mut self, source: &mut S) -> Result<bool, Failed>
        ensures held { IfOk result (λ some. IsTrue some ↔ (0 < length self.new)) }
        ensures told { Refills self.old (S.left source.old) result self.new (S.left source.new) }
        ensures faults { S.faults source.new ≡ counted result (S.faults source.old) }
        ensures unasked { 0 < length self.old → (self.new ≡ self.old) × (source.new ≡ source.old) }
        ensures holds { 0 < length self.old → result ≡ Ok true }
    {
        if self.start < self.end {
            return Ok(true);
        }
        let count = source.read(&mut self.piece)?;
        self.start = 0;
        self.end = count;
        Ok(count > 0)
    }

    /// Moves the rest of a line, and its newline, out of the held bytes, where the line may take `room`
    /// more bytes with its newline. `None` moves all that is held.
    fn take_line(&mut self, room: usize, line: &mut Vec<u8>) -> Result<Option<Ended>, Failed>
        ensures { TakesLine room self.old line.old.items result self.new line.new.items }
    {
        let held = &self.piece[self.start..self.end];
        match memchr(b'\n', held) {
            Some(at) if at < room => {
                append(line, &held[..at])?;
                self.start += at + 1;
                Ok(Some(Ended::Newline))
            }
            Some(_) => Ok(Some(Ended::PastBudget)),
            None if held.len() <= room => {
                append(line, held)?;
                self.start = self.end;
                Ok(None)
            }
            None => Ok(Some(Ended::PastBudget)),
        }
    }
}

/// Puts the bytes behind the line, or leaves it as it is for want of memory.
fn append(line: &mut Vec<u8>, bytes: &[u8]) -> Result<(), Failed>
    ensures line { line.new.items ≡ (if is_ok result then line.old.items ++ bytes.now else line.old.items) }
    ensures memory { IfErr result (λ e. e ≡ Failed.NoMemory) }
{
    line.extend_from_slice(bytes).map_err(|_| Failed::NoMemory)
}
