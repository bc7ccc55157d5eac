//! What is tried of a store, and what comes of it.

ghost use Rattle.std.specs.Prelude.{◌≡◌};
ghost use Rattle.store_trial.specs.declared.steps.TryFault.TheVariants as faults;

use ff_xdr::NoMemory;
use nfs3_wire::Call3;
use rpc_record::AuthSys;
use std::alloc::Global;
use std::vec::Vec;
use store_disk::MemoryDisk;
use thiserror::Error;

/// A call of a store, by a credential (RFC 1813, section 3.3; RFC 5531, section 14).
#[derive(Clone, Copy)]
pub enum StoreStep<'a> {
    /// One whose disks do all that they are asked.
    Call {
        call: Call3<'a>,
        cred: AuthSys<'a>,
    },
    /// One in which each disk stops behind `after` calls of its own. Then both disks crash by `choice`, 0 to 3 as for
    /// `MemoryDisk::crash` (what is above counts as 3), and their log is opened again.
    Stopped {
        call: Call3<'a>,
        cred: AuthSys<'a>,
        after: u64,
        choice: u32,
    },
}

/// The disks of a store behind its steps.
#[derive(Drop)]
pub struct TryEnd {
    pub disk: MemoryDisk,
    pub spare: MemoryDisk,
    /// For each step whether it was answered.
    pub acked: Vec<bool>,
}

/// Why the steps were not all tried.
#[derive(Clone, Copy, Debug, PartialEq, Eq, Error)]
pub enum TryFault {
    /// The log of the disks that were given is bad at this byte, as `ds_store::OpenCause::BadLog` says.
    #[error("the log is bad at {place}")]
    BadLog { place: u64 },
    /// An opening met the last boot number that there is.
    #[error("the boot number is the last that there is")]
    BootsSpent,
    /// Memory was wanted.
    #[error("memory was wanted")]
    NoMemory,
}

impl From<NoMemory> for TryFault {
    ghost from_gives = { λ _ e. e ≡ faults.NoMemory };

    fn from(_: NoMemory) -> TryFault {
        TryFault::NoMemory
    }
}
