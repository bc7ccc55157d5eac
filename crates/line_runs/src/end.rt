//! How lines end a run.

ghost use Rattle.std.specs.Prelude.{◌≡◌};
ghost use Rattle.line_runs.specs.Playback.{is_of_lines};

/// What a step of a line did.
#[derive(Clone, Copy, Debug, PartialEq, Eq)]
pub enum LineStep {
    /// The line was played.
    Done,
    /// There is more of the line.
    More,
    /// Nothing: the line is outside the grammar.
    Outside,
    /// What it asks for would pass a limit, and there are so many entries.
    Limited(u64),
}

/// How a run over the lines of a source ended.
#[derive(Clone, Copy, Debug, PartialEq, Eq)]
pub enum RunEnd {
    /// All lines were played.
    Done,
    /// The line with this number, from 1, is outside the grammar. The lines before it were played.
    BadLine(u64),
    /// The source failed.
    ReadFault,
    /// The sink failed.
    WriteFault,
    /// Memory was wanted.
    NoMemory,
    /// The source is longer than the task's budget, or a line would pass a limit. What comes before
    /// that was played, and there are so many entries.
    Limit(u64),
}

impl RunEnd {
    /// The lines ended the run, and nothing failed.
    pub(crate) fn is_of_lines(self) -> bool
        ensures { result ≡ is_of_lines self }
    {
        match self {
            RunEnd::Done | RunEnd::BadLine(_) | RunEnd::Limit(_) => true,
            RunEnd::ReadFault | RunEnd::WriteFault | RunEnd::NoMemory => false,
        }
    }
}
