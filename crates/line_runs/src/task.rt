//! What is done with the lines of a source.

ghost use Rattle.std.specs.Prelude.{◌≡◌, ◌≢◌, ℕ, ◌+◌, ◌<◌, List, Ok};
ghost use Rattle.line_runs.specs.Writing.{PrintsText};
ghost use Rattle.line_runs.specs.Tasks.{TaskValue, IsAtEnd, BeginsLine, StepsFrom, Rests, ahead_of, on_line};
ghost use Rattle.line_runs.specs.Leads.{LeadsOn};
ghost use Rattle.line_runs.specs.declared.end.LineStep.TheVariants as step;

use crate::end::LineStep;
use ff_xdr::{NoMemory, Out};

/// A task that plays lines, one after the other. A line is played in steps, and a step adds text.
pub trait LineTask {
    /// The most bytes of a source.
    ghost BUDGET: { ℕ };

    /// What a task is, for those who see what has become of it.
    ghost State: { Type 0 };

    /// What counts of the task for its run.
    ghost value: { Self → TaskValue State };

    /// The task stands between two lines, and may go on.
    ghost fresh: { Self → Type 0 };

    /// The task stands within a line, and may go on.
    ghost midway: { Self → Type 0 };

    /// From the first task a run may lead to the second, with this text added on the way: whatever a task
    /// keeps to of its state and the text so far.
    ghost leads: { Self → Self → List ℕ → Type 0 };

    /// How many steps the line has yet, at most.
    ghost steps: { Self → ℕ };

    /// The most bytes of a source.
    const BUDGET: usize;

    /// How many entries there are so far.
    fn count(&self) -> u64
        ensures { result ≡ (value self.now).entries };

    /// Begins a line, and appends the text that its first step adds. After an error a beginning of the
    /// text is appended, and the task is not to be used again. After a limit or a line outside the
    /// grammar it is only to be closed.
    fn play(&mut self, line: &[u8], text: &mut Out) -> Result<LineStep, NoMemory>
        ensures does { fresh self.old → (number : ℕ) → BeginsLine number (on_line line.now (ahead_of number (value self.old))) text.old result (value self.new) text.new }
        ensures rests { fresh self.old → Rests result (fresh self.new) (midway self.new) }
        ensures led { fresh self.old → (start : Self) → LeadsOn (leads start) self.old text.old result self.new text.new };

    /// Goes on within a line, and appends the text that the step adds, as `play` does.
    fn go_on(&mut self, text: &mut Out) -> Result<LineStep, NoMemory>
        ensures does { midway self.old → (number : ℕ) → StepsFrom number (ahead_of number (value self.old)) text.old result (value self.new) text.new }
        ensures rests { midway self.old → Rests result (fresh self.new) (midway self.new) }
        ensures led { midway self.old → (start : Self) → LeadsOn (leads start) self.old text.old result self.new text.new }
        ensures falls { result ≡ Ok step.More → steps self.new < steps self.old };

    /// Appends the text that is added where the lines end, or a beginning of it at an error. The task
    /// stays what it is.
    fn close(&mut self, text: &mut Out) -> Result<(), NoMemory>
        ensures prints { PrintsText text.old (value self.old).closing result text.new }
        ensures stays { (value self.new).state ≡ (value self.old).state };

    /// No lines come to the closing text alone.
    ghost ends: { (task : Self) (number : ℕ) → fresh task → IsAtEnd (value task) (ahead_of number (value task)) };
}
