//! What an operation comes to.

use nfs4_types::Stat4;

/// What an operation of a compound comes to.
#[derive(Clone, Copy, Debug, PartialEq, Eq)]
pub enum OpEnd {
    /// It is done, and the next one follows.
    Goes,
    /// It is not, which ends the compound by this status.
    Ends(Stat4),
    /// It waits for data servers: what it waits for keeps the compound.
    Waits,
}
