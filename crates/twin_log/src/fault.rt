//! Why a log could not be opened.

ghost use Rattle.std.specs.Prelude.{◌≡◌};
ghost use Rattle.twin_log.specs.Causes.{log_cause};

use rpc_record::Failed;
use thiserror::Error;

/// Why a log could not be opened.
#[derive(Clone, Copy, Debug, PartialEq, Eq, Error)]
pub enum LogCause {
    /// A disk failed.
    #[error("a disk failed")]
    Disk,
    /// The log is bad at this byte of the file that has it: a record there passes the file's end, or the file ends where a
    /// gate byte is due. It is bad at 0 where both files have the same generation.
    #[error("the log is bad at {0}")]
    BadLog(u64),
    /// Memory was wanted.
    #[error("memory was wanted")]
    NoMemory,
}

impl From<Failed> for LogCause {
    ghost from_gives = { λ failed cause. cause ≡ log_cause failed };

    fn from(failed: Failed) -> LogCause {
        match failed {
            Failed::Fault => LogCause::Disk,
            Failed::NoMemory => LogCause::NoMemory,
        }
    }
}

/// Why a call on a log was not done.
#[derive(Clone, Copy, Debug, PartialEq, Eq, Error)]
pub enum LogError {
    /// A disk failed in this call: the log has what it wrote, or not. It is to be opened again.
    #[error("a disk failed")]
    Disk,
    /// A disk failed in an earlier call. The log is to be opened again.
    #[error("a disk failed before")]
    Broken,
    /// Memory was wanted. Where it was a disk that wanted it, the log is to be opened again.
    #[error("memory was wanted")]
    NoMemory,
}
