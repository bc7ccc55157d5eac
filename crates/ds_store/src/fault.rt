//! Why a store does not answer.

ghost use Rattle.std.specs.Prelude.{◌≡◌};
ghost use Rattle.ds_store.specs.declared.fault.OpenCause.TheVariants as causes;
ghost use Rattle.ds_store.specs.declared.fault.StoreFault.TheVariants as faults;
ghost use Rattle.ds_store.specs.Opens.{cause_of, cause_of_log};

use ff_xdr::NoMemory;
use rpc_record::Failed;
use thiserror::Error;
use twin_log::LogCause;

/// Why a call was not done.
#[derive(Clone, Copy, Debug, PartialEq, Eq, Error)]
pub enum StoreFault {
    /// A disk failed in this call: the log has it, or not. The store is to be opened again.
    #[error("a disk failed")]
    Disk,
    /// A disk failed in an earlier call. The store is to be opened again.
    #[error("a disk failed before")]
    Broken,
    /// Memory was wanted. Where it was a disk that wanted it, or a renewal of the log, the store is to be opened again.
    #[error("memory was wanted")]
    NoMemory,
}

impl From<NoMemory> for StoreFault {
    ghost from_gives = { λ _ e. e ≡ faults.NoMemory };

    fn from(_: NoMemory) -> StoreFault {
        StoreFault::NoMemory
    }
}

/// Why a log could not be opened.
#[derive(Clone, Copy, Debug, PartialEq, Eq, Error)]
pub enum OpenCause {
    /// A disk failed. The log may have the next boot number.
    #[error("a disk failed")]
    Disk,
    /// The log is bad at this byte of the file that has it: there begins the first record that is cut, out of its form or does
    /// not fit what stands before it, or a gate byte is missing there. At 0 too where both files have the same generation.
    #[error("the log is bad at {0}")]
    BadLog(u64),
    /// The boot number is the last that there is.
    #[error("the boot number is the last that there is")]
    BootsSpent,
    /// Memory was wanted.
    #[error("memory was wanted")]
    NoMemory,
}

impl From<NoMemory> for OpenCause {
    ghost from_gives = { λ _ e. e ≡ causes.NoMemory };

    fn from(_: NoMemory) -> OpenCause {
        OpenCause::NoMemory
    }
}

impl From<Failed> for OpenCause {
    ghost from_gives = { λ failed cause. cause ≡ cause_of failed };

    fn from(failed: Failed) -> OpenCause {
        match failed {
            Failed::Fault => OpenCause::Disk,
            Failed::NoMemory => OpenCause::NoMemory,
        }
    }
}

impl From<LogCause> for OpenCause {
    ghost from_gives = { λ log cause. cause ≡ cause_of_log log };

    fn from(cause: LogCause) -> OpenCause {
        match cause {
            LogCause::Disk => OpenCause::Disk,
            LogCause::BadLog(place) => OpenCause::BadLog(place),
            LogCause::NoMemory => OpenCause::NoMemory,
        }
    }
}
