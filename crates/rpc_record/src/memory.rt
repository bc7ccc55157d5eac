//! A source and a sink over memory, in which chosen calls fail.
ghost use Rattle.std.specs.Prelude.{◌≡◌, ◌↔◌, ℕ, ◌+◌, ◌-◌, ◌^◌, ◌<◌, ◌≤◌, min, List, [], ◌++◌, length, take, drop, Some, Ok, Err, IfOk, MatchResult, IsTrue, if◌then◌else◌};
ghost use Rattle.rpc_record.specs.Stream.{SourceState, SinkState, counted, one_more, fails_next, Reads, Writes};

use crate::{Failed, Sink, Source, SureSink, SureSource};
use std::alloc::Global;
use std::marker::Model;

/// Which calls are to fail, and how many were made and have failed.
#[derive(Drop)]
struct Schedule {
    failing: Vec<u64>,
    calls: u64,
    faults: u64,
}

impl Schedule {
    fn new(failing: Vec<u64>) -> Schedule
        ensures { result ≡ record { failing = failing; calls = 0; faults = 0 } }
    {
        Schedule {
            failing,
            calls: 0,
            faults: 0,
        }
    }

    /// Begins the next call, which fails if its number is on the list.
    fn begin_call(&mut self) -> Result<(), Failed>
        ensures fails { result ≡ (if fails_next self.old.failing.items self.old.calls then Err Failed.Fault else Ok tt) }
        ensures failing { self.new.failing ≡ self.old.failing }
        ensures calls { self.new.calls ≡ one_more self.old.calls }
        ensures faults { self.new.faults ≡ counted result self.old.faults }
    {
        let fails = self.fails_next();
        self.calls = self.calls.saturating_add(1);
        if fails {
            self.faults = self.faults.saturating_add(1);
            return Err(Failed::Fault);
        }
        Ok(())
    }

    fn fails_next(&self) -> bool
        ensures { result ≡ fails_next self.now.failing.items self.now.calls }
    {
        self.calls < u64::MAX && self.failing.contains(&(self.calls + 1))
    }
}

/// A source that gives the bytes of a `Vec`, in which chosen calls fail. It tells what is left.
#[derive(Drop)]
pub struct MemorySource {
    source: SureSource,
    schedule: Schedule,
}

impl Model for MemorySource {
    ghost Value = { SourceState };

    ghost view = { λ memory. record {
      left = memory.source;
      failing = memory.schedule.failing.items;
      calls = memory.schedule.calls;
      faults = memory.schedule.faults;
    } };
}

impl MemorySource {
    /// A source of these bytes. `failing` are the numbers of the calls of `read`, from 1, that answer
    /// `Failed::Fault` and take nothing.
    pub fn new(bytes: Vec<u8>, failing: Vec<u64>) -> MemorySource
        ensures { result ≡ record { left = bytes.items; failing = failing.items; calls = 0; faults = 0 } }
    {
        MemorySource {
            source: SureSource::new(bytes),
            schedule: Schedule::new(failing),
        }
    }
}

impl Source for MemorySource {
    ghost faults = { λ memory. memory.faults };

    ghost left = { λ memory. Some memory.left };

    /// Fails where the call's number is on the list. Else it gives as many bytes as the piece has room
    /// for or are left, and leaves the rest of the piece as it was.
    fn read(&mut self, piece: &mut [u8]) -> Result<usize, Failed>
        ensures within { IfOk result (λ n. n ≤ length piece.new) }
        ensures told { Reads (Some self.old.left) piece.new result (Some self.new.left) }
        ensures faults { self.new.faults ≡ counted result self.old.faults }
        ensures exact { result ≡ (if fails_next self.old.failing self.old.calls then Err Failed.Fault else Ok (min (length piece.old) (length self.old.left))) }
        ensures rest { MatchResult result (λ n. drop n piece.new ≡ drop n piece.old) (λ _. piece.new ≡ piece.old) }
        ensures failing { self.new.failing ≡ self.old.failing }
        ensures calls { self.new.calls ≡ one_more self.old.calls }
    {
        self.schedule.begin_call()?;
        self.source.read(piece)
    }
}

/// A sink that holds what is written to it, in which chosen calls fail. It tells what it holds.
#[derive(Drop)]
pub struct MemorySink {
    sink: SureSink,
    schedule: Schedule,
}

impl Model for MemorySink {
    ghost Value = { SinkState };

    ghost view = { λ memory. record {
      held = memory.sink;
      failing = memory.schedule.failing.items;
      calls = memory.schedule.calls;
      faults = memory.schedule.faults;
    } };
}

impl MemorySink {
    /// A sink that holds nothing yet, and takes its memory from `alloc`. `failing` are the numbers of
    /// the calls of `write`, from 1, that answer `Failed::Fault` and take nothing.
    pub fn new(alloc: Global, failing: Vec<u64>) -> MemorySink
        ensures { result ≡ record { held = []; failing = failing.items; calls = 0; faults = 0 } }
    {
        MemorySink {
            sink: SureSink::new(alloc),
            schedule: Schedule::new(failing),
        }
    }

    /// The bytes that it holds.
    pub fn bytes(&self) -> &[u8]
        ensures { result.now ≡ self.now.held }
    {
        self.sink.bytes()
    }
}

impl Sink for MemorySink {
    ghost faults = { λ memory. memory.faults };

    ghost held = { λ memory. Some memory.held };

    /// Fails where the call's number is on the list. Else it takes the whole piece, or answers
    /// `Failed::NoMemory` and holds what it held.
    fn write(&mut self, piece: &[u8]) -> Result<usize, Failed>
        ensures within { IfOk result (λ n. n ≤ length piece.now) }
        ensures takes { IfOk result (λ n. 0 < length piece.now → 0 < n) }
        ensures told { Writes (Some self.old.held) piece.now result (Some self.new.held) }
        ensures faults { self.new.faults ≡ counted result self.old.faults }
        ensures fails { IsTrue (fails_next self.old.failing self.old.calls) ↔ (result ≡ Err Failed.Fault) }
        ensures whole { IfOk result (λ n. n ≡ length piece.now) }
        ensures failing { self.new.failing ≡ self.old.failing }
        ensures calls { self.new.calls ≡ one_more self.old.calls }
    {
        self.schedule.begin_call()?;
        self.sink.write(piece)
    }
}
