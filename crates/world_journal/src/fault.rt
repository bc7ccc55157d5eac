//! Why an event does not happen.

use ff_xdr::NoMemory;
use thiserror::Error;

/// Why an event did not happen.
#[derive(Debug, Clone, Copy, PartialEq, Eq, Error)]
pub enum WorldFault {
    /// The journal, which has so many entries, would pass a limit with it.
    #[error("a journal of {entries} entries would pass a limit")]
    Limit { entries: u64 },
    /// Memory was wanted.
    #[error("memory was wanted")]
    NoMemory,
}

impl From<NoMemory> for WorldFault {
    ghost use Rattle.std.specs.Prelude.{◌≡◌};
    ghost use Rattle.world_journal.specs.declared.fault.WorldFault.TheVariants.{NoMemory};

    ghost from_gives = { λ _ e. e ≡ NoMemory };

    fn from(_: NoMemory) -> WorldFault {
        WorldFault::NoMemory
    }
}
