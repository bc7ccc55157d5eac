//! A run over the lines of a source to its end.

ghost use Rattle.std.specs.Prelude.{◌≡◌, ◌+◌, ◌-◌, ◌<◌, ◌≤◌, ◌↔◌, ℕ, List, [], None, Some, Ok, Err, OnOk, OnErr, IfOk, IfSome, IsTrue, length};
ghost use Rattle.rpc_record.specs.Stream.{counted};
ghost use Rattle.line_runs.specs.declared.end.RunEnd.TheVariants as ends;
ghost use Rattle.line_runs.specs.Lines.{HoldsNoLine, IsWithinBudget, ReadsLine};
ghost use Rattle.line_runs.specs.Writing.{WritesText};
ghost use Rattle.line_runs.specs.Runs.{Runs, HasBecome, read_faults, write_faults};
ghost use Rattle.line_runs.specs.Tasks.{BeginsLine, StepsFrom, Rests, ahead_of, on_line};
ghost use Rattle.line_runs.specs.Leads.{LeadsOn, HasLed, GotPart, RunHasLed, EndHasLed, task_closing};
ghost use Rattle.line_runs.specs.declared.end.LineStep.TheVariants as step;
ghost use Rattle.line_runs.specs.Playback.{start, with_text, full, stand, at_line, StepFaults, LinesFaults, HasWrittenAll, PlaybackSteps, PlaysAll, Finishes, ClosesRun, Relieves, LinePlays, LastPlays, IsOfLine, to_do};

use crate::end::{LineStep, RunEnd};
use crate::lines::{Ended, LineBuffer};
use crate::task::LineTask;
use crate::writing::write_all;
use ff_xdr::{NoMemory, Out};
use rpc_record::{Failed, Sink, Source};
use std::alloc::{AllocError, Global};
use std::marker::Model;

/// The text is written once it has so many bytes.
pub const FULL: usize = 65_536;

/// A run that is under way, apart from its task.
#[derive(Drop)]
struct Playback {
    text: Out,
    buffer: LineBuffer,
    room: usize,
    begun: u64,
}

impl Model for Playback {
    ghost use Rattle.std.specs.Prelude.{◌+◌, ◌<◌, ◌^◌};
    ghost use Rattle.line_runs.specs.Playback.{RunState};

    ghost Value = { RunState };

    ghost view = { λ r. record { text = r.text; held = r.buffer; room = r.room; begun = r.begun } };

    ghost invariant = { λ r. r.begun + r.room < 2 ^ 64 };
}

impl Playback {
    /// Before the first line of a source that may have so many bytes.
    fn new(alloc: Global, budget: usize) -> Result<Playback, AllocError>
        ensures { IfOk result (λ run. run ≡ start budget) }
    {
        Ok(Playback {
            text: Out::new(alloc),
            buffer: LineBuffer::new(alloc)?,
            room: budget,
            begun: 0,
        })
    }

    /// The text is long enough to be written.
    fn is_full(&self) -> bool
        ensures { IsTrue result ↔ (full ≤ length self.now.text) }
    {
        self.text.len() >= FULL
    }

    /// Writes the text so far. At an error the sink has taken a beginning of it, and the run is as
    /// before.
    fn flush<K: Sink>(&mut self, sink: &mut K) -> Result<(), Failed>
        ensures told { WritesText (K.held sink.old) self.old.text result (K.held sink.new) }
        ensures faults { K.faults sink.new ≡ counted result (K.faults sink.old) }
        ensures ok { OnOk result (self.new ≡ with_text [] self.old) }
        ensures err { OnErr result (self.new ≡ self.old) }
        ensures some { OnErr result (0 < length self.old.text) }
    {
        write_all(sink, self.text.bytes())?;
        self.text.truncate(0);
        Ok(())
    }

    /// Writes the text so far where it is long.
    fn relieve<K: Sink>(&mut self, sink: &mut K) -> Result<(), Failed>
        ensures told { Relieves (K.held sink.old) self.old result (K.held sink.new) self.new }
        ensures faults { K.faults sink.new ≡ counted result (K.faults sink.old) }
        ensures short { OnOk result (length self.new.text < full) }
        ensures rest { (self.new.room ≡ self.old.room) × (self.new.begun ≡ self.old.begun) }
    {
        if self.is_full() {
            self.flush(sink)?;
        }
        Ok(())
    }

    /// Begins a line, which took so many bytes of the source. Where memory is wanted no text is added.
    fn begin<T: LineTask>(
        &mut self,
        task: &mut T,
        line: &[u8],
        taken: usize,
    ) -> Result<LineStep, NoMemory>
        requires some { 0 < taken }
        requires within { taken ≤ self.old.room }
        ensures does { T.fresh task.old → BeginsLine (self.old.begun + 1) (on_line line.now (ahead_of (self.old.begun + 1) (T.value task.old))) self.old.text result (T.value task.new) self.new.text }
        ensures rests { T.fresh task.old → Rests result (T.fresh task.new) (T.midway task.new) }
        ensures led { T.fresh task.old → (start : T) → LeadsOn (T.leads start) task.old self.old.text result task.new self.new.text }
        ensures kept { T.fresh task.old → OnErr result (self.new.text ≡ self.old.text) }
        ensures rest { self.new ≡ record { text = self.new.text; held = self.old.held; room = self.old.room - taken; begun = self.old.begun + 1 } }
    {
        self.room -= taken;
        self.begun += 1;
        let before = self.text.len();
        match task.play(line, &mut self.text) {
            Ok(step) => Ok(step),
            Err(e) => {
                self.text.truncate(before);
                Err(e)
            }
        }
    }

    /// Goes on within a line. Where memory is wanted no text is added.
    fn go_on<T: LineTask>(&mut self, task: &mut T) -> Result<LineStep, NoMemory>
        ensures does { T.midway task.old → (number : ℕ) → StepsFrom number (ahead_of number (T.value task.old)) self.old.text result (T.value task.new) self.new.text }
        ensures rests { T.midway task.old → Rests result (T.fresh task.new) (T.midway task.new) }
        ensures led { T.midway task.old → (start : T) → LeadsOn (T.leads start) task.old self.old.text result task.new self.new.text }
        ensures kept { T.midway task.old → OnErr result (self.new.text ≡ self.old.text) }
        ensures rest { self.new ≡ with_text self.new.text self.old }
        ensures falls { result ≡ Ok step.More → T.steps task.new < T.steps task.old }
    {
        let before = self.text.len();
        match task.go_on(&mut self.text) {
            Ok(step) => Ok(step),
            Err(e) => {
                self.text.truncate(before);
                Err(e)
            }
        }
    }

    /// Plays a line to its end, which took so many bytes of the source. Between its steps the text is
    /// written where it is long. `None` is that the line was played; an end is a line outside the
    /// grammar, one that would pass a limit, or want of memory. An error is one of the sink.
    fn play_line<T: LineTask, K: Sink>(
        &mut self,
        task: &mut T,
        line: &[u8],
        taken: usize,
        sink: &mut K,
    ) -> Result<Option<RunEnd>, Failed>
        requires some { 0 < taken }
        requires within { taken ≤ self.old.room }
        ensures told { T.fresh task.old → LinePlays (K.held sink.old) (at_line taken line.now (stand (T.value task.old) self.old)) result (K.held sink.new) (T.value task.new) (stand (T.value task.new) self.new) }
        ensures stands { T.fresh task.old → (start : T) (base : List ℕ) → HasLed (T.leads start) base (K.held sink.old) task.old self.old.text → RunHasLed (T.leads start) (task_closing T.value) base result (K.held sink.new) task.new self.new.text }
        ensures rests { T.fresh task.old → result ≡ Ok None → T.fresh task.new }
        ensures ends { IfOk result (λ end. IfSome end (λ e. IsOfLine e)) }
        ensures room { self.new.room < self.old.room }
        ensures writes { K.faults sink.new ≡ counted result (K.faults sink.old) }
    {
        let mut step = self.begin(task, line, taken);
        loop {
            match step {
                Ok(LineStep::More) => {
                    self.relieve(sink)?;
                    step = self.go_on(task);
                }
                Ok(LineStep::Done) => {
                    self.relieve(sink)?;
                    return Ok(None);
                }
                Ok(LineStep::Outside) => return Ok(Some(RunEnd::BadLine(self.begun))),
                Ok(LineStep::Limited(count)) => return Ok(Some(RunEnd::Limit(count))),
                Err(_) => return Ok(Some(RunEnd::NoMemory)),
            }
        }
    }

    /// Plays the last line, which has no newline, and is no line where it is empty. The result is an
    /// end. An error is one of the sink.
    fn play_last<T: LineTask, K: Sink>(
        &mut self,
        task: &mut T,
        line: &[u8],
        sink: &mut K,
    ) -> Result<Option<RunEnd>, Failed>
        requires within { length line.now ≤ self.old.room }
        ensures told { T.fresh task.old → LastPlays (K.held sink.old) line.now (T.value task.old) (stand (T.value task.old) self.old) result (K.held sink.new) (T.value task.new) (stand (T.value task.new) self.new) }
        ensures stands { T.fresh task.old → (start : T) (base : List ℕ) → HasLed (T.leads start) base (K.held sink.old) task.old self.old.text → RunHasLed (T.leads start) (task_closing T.value) base result (K.held sink.new) task.new self.new.text }
        ensures rests { T.fresh task.old → result ≡ Ok (Some ends.Done) → T.fresh task.new }
        ensures ends { IfOk result (λ end. IfSome end (λ e. IsOfLine e)) }
        ensures some { result ≡ Ok None → ⊥ }
        ensures writes { K.faults sink.new ≡ counted result (K.faults sink.old) }
    {
        if line.is_empty() {
            return Ok(Some(RunEnd::Done));
        }
        match self.play_line(task, line, line.len(), sink)? {
            None => Ok(Some(RunEnd::Done)),
            Some(end) => Ok(Some(end)),
        }
    }

    /// Reads the next line. Where no line is held the source is asked, and all text is written by then.
    fn read_line<S: Source>(&mut self, source: &mut S, line: &mut Vec<u8>) -> Result<Ended, Failed>
        requires written { HoldsNoLine self.old.held → self.old.text ≡ [] }
        ensures told { ReadsLine self.old.room self.old.held (S.left source.old) result line.new.items self.new.held (S.left source.new) }
        ensures within { IfOk result (λ ended. IsWithinBudget self.old.room ended line.new.items) }
        ensures faults { S.faults source.new ≡ counted result (S.faults source.old) }
        ensures rest { self.new ≡ record { text = self.old.text; held = self.new.held; room = self.old.room; begun = self.old.begun } }
        ensures asks { result ≡ Err Failed.Fault → self.old.text ≡ [] }
    {
        let room = self.room;
        self.buffer.read_line(source, room, line)
    }

    /// Plays the next line, and writes the text where it is long. Where the source is to be asked and
    /// text waits, that is written instead. `None` is that there may be more lines. An error is one of
    /// the sink.
    fn next<T: LineTask, S: Source, K: Sink>(
        &mut self,
        task: &mut T,
        source: &mut S,
        sink: &mut K,
        line: &mut Vec<u8>,
    ) -> Result<Option<RunEnd>, Failed>
        ensures told { T.fresh task.old → PlaybackSteps (S.left source.old) (K.held sink.old) (stand (T.value task.old) self.old) result (S.left source.new) (K.held sink.new) (T.value task.new) (stand (T.value task.new) self.new) }
        ensures stands { T.fresh task.old → (start : T) (base : List ℕ) → HasLed (T.leads start) base (K.held sink.old) task.old self.old.text → RunHasLed (T.leads start) (task_closing T.value) base result (K.held sink.new) task.new self.new.text }
        ensures goes_on { T.fresh task.old → result ≡ Ok None → T.fresh task.new }
        ensures shrinks { OnOk result (result ≡ Ok None → to_do self.new < to_do self.old) }
        ensures written { IfOk result (λ end. IfSome end (λ e. HasWrittenAll e self.new.text)) }
        ensures reads { StepFaults result (S.faults source.old) (S.faults source.new) }
        ensures writes { K.faults sink.new ≡ counted result (K.faults sink.old) }
    {
        if !self.text.is_empty() && !self.buffer.holds_line() {
            self.flush(sink)?;
            return Ok(None);
        }
        match self.read_line(source, line) {
            Err(Failed::Fault) => Ok(Some(RunEnd::ReadFault)),
            Err(Failed::NoMemory) => Ok(Some(RunEnd::NoMemory)),
            Ok(Ended::PastBudget) => Ok(Some(RunEnd::Limit(task.count()))),
            Ok(Ended::End) => self.play_last(task, line, sink),
            Ok(Ended::Newline) => self.play_line(task, line, line.len() + 1, sink),
        }
    }

    /// Plays all lines. The text that is not yet written is the run's. An error is one of the sink.
    fn play<T: LineTask, S: Source, K: Sink>(
        &mut self,
        alloc: Global,
        task: &mut T,
        source: &mut S,
        sink: &mut K,
    ) -> Result<RunEnd, Failed>
        ensures told { T.fresh task.old → PlaysAll (S.left source.old) (K.held sink.old) (stand (T.value task.old) self.old) result (S.left source.new) (K.held sink.new) (T.value task.new) self.new.text }
        ensures stands { T.fresh task.old → (start : T) (base : List ℕ) → HasLed (T.leads start) base (K.held sink.old) task.old self.old.text → EndHasLed (T.leads start) (task_closing T.value) base result (K.held sink.new) task.new self.new.text }
        ensures written { IfOk result (λ end. HasWrittenAll end self.new.text) }
        ensures reads { LinesFaults result (S.faults source.old) (S.faults source.new) }
        ensures writes { K.faults sink.new ≡ counted result (K.faults sink.old) }
    {
        let mut line = Vec::new(alloc);
        loop {
            if let Some(end) = self.next(task, source, sink, &mut line)? {
                return Ok(end);
            }
        }
    }

    /// Appends the closing text where lines ended the run so, and answers how it ends then.
    fn close<T: LineTask>(&mut self, task: &mut T, end: RunEnd) -> RunEnd
        ensures closes { ClosesRun end (T.value task.old).closing self.old.text result self.new.text }
        ensures stays { (T.value task.new).state ≡ (T.value task.old).state }
    {
        if !end.is_of_lines() {
            return end;
        }
        match task.close(&mut self.text) {
            Ok(()) => end,
            Err(_) => RunEnd::NoMemory,
        }
    }

    /// Plays all lines, and writes the whole text. An error is one of the sink.
    fn finish<T: LineTask, S: Source, K: Sink>(
        &mut self,
        alloc: Global,
        task: &mut T,
        source: &mut S,
        sink: &mut K,
    ) -> Result<RunEnd, Failed>
        ensures told { T.fresh task.old → Finishes (S.left source.old) (K.held sink.old) (stand (T.value task.old) self.old) result (S.left source.new) (K.held sink.new) (T.value task.new).state [] }
        ensures stands { T.fresh task.old → (start : T) (base : List ℕ) → HasLed (T.leads start) base (K.held sink.old) task.old self.old.text → GotPart (T.leads start) (task_closing T.value) base (K.held sink.new) }
        ensures reads { LinesFaults result (S.faults source.old) (S.faults source.new) }
        ensures writes { K.faults sink.new ≡ counted result (K.faults sink.old) }
    {
        let ended = self.play(alloc, task, source, sink)?;
        let end = self.close(task, ended);
        self.flush(sink)?;
        Ok(end)
    }
}

/// Runs a task over the lines of `source`, one after the other, and writes their text to `sink`, with
/// the task's closing text behind it where the lines ended the run. Where the source failed, that is
/// the text of the lines that ended in what it gave; where the sink failed or memory was wanted, a
/// beginning of it.
///
/// The source is asked for more only when the text of all lines so far was written, so a line is
/// answered before the next is read: its failure never follows on a failure of the sink.
pub fn run_lines<T: LineTask, S: Source, K: Sink>(
    alloc: Global,
    task: &mut T,
    source: &mut S,
    sink: &mut K,
) -> RunEnd
    requires { T.fresh task.old }
    ensures told { Runs T.BUDGET ((T.value task.old).meaning 1) (S.left source.old) (K.held sink.old) result (S.left source.new) (K.held sink.new) }
    ensures got { (base : List ℕ) → K.held sink.old ≡ Some base → T.leads task.old task.old [] → GotPart (T.leads task.old) (task_closing T.value) base (K.held sink.new) }
    ensures became { HasBecome T.BUDGET (T.value task.old).after (S.left source.old) result (T.value task.new).state }
    ensures reads { S.faults source.new ≡ read_faults result (S.faults source.old) }
    ensures writes { K.faults sink.new ≡ write_faults result (K.faults sink.old) }
{
    let Ok(mut run) = Playback::new(alloc, T::BUDGET) else {
        return RunEnd::NoMemory;
    };
    match run.finish(alloc, task, source, sink) {
        Ok(end) => end,
        Err(Failed::Fault) => RunEnd::WriteFault,
        Err(Failed::NoMemory) => RunEnd::NoMemory,
    }
}
