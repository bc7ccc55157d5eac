//! The readers and writers of `std::io` as sources and sinks.
ghost use Rattle.std.specs.Prelude.{◌≡◌, ◌≢◌, ◌↔◌, ℕ, ◌<◌, ◌≤◌, length, None, Err, IsOk, IfOk};
ghost use Rattle.std.specs.Io.KnownBytes.{Keeps, ReadConsumes};
ghost use Rattle.rpc_record.specs.Stream.{ReaderState, WriterState, counted, Reads, Writes, WritesTo};

use crate::{Failed, Sink, Source};
use std::io::{ErrorKind, Read, Write};
use std::marker::Model;

/// A reader of `std::io` as a source. As a `Source` it doesn't tell what is left. Its own clauses see
/// it as what is known of the bytes that the reader has left, and its count of faults.
#[derive(Drop)]
pub struct StdSource<R: Read + Drop> {
    reader: R,
    faults: u64,
}

impl<R: Read + Drop> Model for StdSource<R> {
    ghost Value = { ReaderState };

    ghost view = { λ source. record { remaining = R.remaining source.reader; faults = source.faults } };
}

impl<R: Read + Drop> StdSource<R> {
    /// A source that reads from `reader`.
    pub fn new(reader: R) -> StdSource<R>
        ensures { result ≡ record { remaining = R.remaining reader; faults = 0 } }
    {
        StdSource { reader, faults: 0 }
    }
}

impl<R: Read + Drop> Source for StdSource<R> {
    ghost faults = { λ source. source.faults };

    ghost left = { λ _. None };

    /// Reads once, again where a signal interrupts it. An error of the reader's is a fault, but for
    /// one of kind `OutOfMemory`, which is `Failed::NoMemory`.
    fn read(&mut self, piece: &mut [u8]) -> Result<usize, Failed>
        ensures within { IfOk result (λ n. n ≤ length piece.new) }
        ensures told { Reads None piece.new result None }
        ensures faults { self.new.faults ≡ counted result self.old.faults }
        ensures bytes { ReadConsumes self.old.remaining self.new.remaining result piece.new }
    {
        let outcome = read_piece(&mut self.reader, piece);
        count(outcome, &mut self.faults)
    }
}

/// A writer of `std::io` as a sink. As a `Sink` it doesn't tell what it holds. Its own clauses see it
/// as what is known of the bytes that the writer holds, and its count of faults.
#[derive(Drop)]
pub struct StdSink<W: Write + Drop> {
    writer: W,
    faults: u64,
}

impl<W: Write + Drop> Model for StdSink<W> {
    ghost Value = { WriterState };

    ghost view = { λ sink. record { contents = W.contents sink.writer; faults = sink.faults } };
}

impl<W: Write + Drop> StdSink<W> {
    /// A sink that writes to `writer`.
    pub fn new(writer: W) -> StdSink<W>
        ensures { result ≡ record { contents = W.contents writer; faults = 0 } }
    {
        StdSink { writer, faults: 0 }
    }
}

impl<W: Write + Drop> Sink for StdSink<W> {
    ghost faults = { λ sink. sink.faults };

    ghost held = { λ _. None };

    /// Writes once, again where a signal interrupts it, and flushes, so that no buffer keeps what was
    /// taken. An error of the writing is a fault, but for one of kind `OutOfMemory`, which is
    /// `Failed::NoMemory`: nothing was taken then. An error of the flush, of any kind, is a fault, and so
    /// is a writer that takes nothing of a piece that isn't empty. After a fault a part of the piece may
    /// have been taken.
    fn write(&mut self, piece: &[u8]) -> Result<usize, Failed>
        ensures within { IfOk result (λ n. n ≤ length piece.now) }
        ensures takes { IfOk result (λ n. 0 < length piece.now → 0 < n) }
        ensures told { Writes None piece.now result None }
        ensures faults { self.new.faults ≡ counted result self.old.faults }
        ensures bytes { WritesTo self.old.contents piece.now result self.new.contents }
    {
        let outcome = write_piece(&mut self.writer, piece);
        count(outcome, &mut self.faults)
    }
}

/// The outcome, with a fault counted.
fn count(outcome: Result<usize, Failed>, faults: &mut u64) -> Result<usize, Failed>
    ensures same { result ≡ outcome }
    ensures counted { faults.new ≡ counted result faults.old }
{
    if outcome == Err(Failed::Fault) {
        *faults = faults.saturating_add(1);
    }
    outcome
}

fn read_piece<R: Read>(reader: &mut R, piece: &mut [u8]) -> Result<usize, Failed>
    ensures within { IfOk result (λ n. n ≤ length piece.new) }
    ensures bytes { ReadConsumes (R.remaining reader.old) (R.remaining reader.new) result piece.new }
{
    for _ in 0..u64::MAX {
        match reader.read(piece) {
            Ok(count) => return Ok(count),
            Err(error) => retry(error.kind())?,
        }
    }
    Err(Failed::Fault)
}

fn write_piece<W: Write>(writer: &mut W, piece: &[u8]) -> Result<usize, Failed>
    ensures within { IfOk result (λ n. n ≤ length piece.now) }
    ensures takes { IfOk result (λ n. 0 < length piece.now → 0 < n) }
    ensures bytes { WritesTo (W.contents writer.old) piece.now result (W.contents writer.new) }
{
    for _ in 0..u64::MAX {
        match writer.write(piece) {
            Ok(0) if !piece.is_empty() => return Err(Failed::Fault),
            Ok(count) => {
                flush(writer)?;
                return Ok(count);
            }
            Err(error) => retry(error.kind())?,
        }
    }
    Err(Failed::Fault)
}

/// Flushes, again where a signal interrupts it. Bytes were taken before, so any other error is a fault.
fn flush<W: Write>(writer: &mut W) -> Result<(), Failed>
    ensures kept { Keeps (W.contents writer.old) (W.contents writer.new) }
    ensures faults { result ≢ Err Failed.NoMemory }
{
    for _ in 0..u64::MAX {
        match writer.flush() {
            Ok(()) => return Ok(()),
            Err(error) if error.kind() == ErrorKind::Interrupted => {}
            Err(_) => return Err(Failed::Fault),
        }
    }
    Err(Failed::Fault)
}

/// `Ok` for an error after which the call is tried again, or why the call failed.
fn retry(kind: ErrorKind) -> Result<(), Failed>
    ensures again { IsOk result ↔ (kind ≡ ErrorKind.Interrupted) }
    ensures memory { (result ≡ Err Failed.NoMemory) ↔ (kind ≡ ErrorKind.OutOfMemory) }
{
    if kind == ErrorKind::Interrupted {
        Ok(())
    } else if kind == ErrorKind::OutOfMemory {
        Err(Failed::NoMemory)
    } else {
        Err(Failed::Fault)
    }
}
