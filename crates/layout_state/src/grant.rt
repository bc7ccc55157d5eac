//! What is granted, and why a grant or a return is refused.

use cluster_model::{Cred, Mirrors, Phase};
use thiserror::Error;

/// A grant of a file for writing: the user to write as, and the mirrors to write to.
#[derive(Clone, Copy, Debug, PartialEq, Eq)]
pub struct Grant {
    pub cred: Cred,
    pub mirrors: Mirrors,
    /// The asker holds it already.
    pub again: bool,
}

/// Why a file is not granted.
#[derive(Clone, Copy, Debug, PartialEq, Eq, Error)]
pub enum GrantFault {
    /// It is in this phase, and not held by who asks.
    #[error("the file is {0:?}, and not held by who asks")]
    Later(Phase),
    /// Who asks holds it, and it is recalled.
    #[error("the layout is recalled")]
    Recalling,
    /// Too few users are left for another period.
    #[error("too few users are left for another period")]
    Spent,
}

/// Why a return is not taken.
#[derive(Clone, Copy, Debug, PartialEq, Eq, Error)]
pub enum ReturnFault {
    /// The file is not held.
    #[error("the file is not held")]
    Unknown,
    /// Another node holds it, or under another user, which is the current one.
    #[error("another node holds the file, or under another user, which is now {}", .current.0)]
    Other { current: Cred },
}

/// Why no mirrors are added. Nothing has changed then.
#[derive(Clone, Copy, Debug, PartialEq, Eq, Error)]
pub enum AddMirrorFault {
    /// The file is in this phase, and not free.
    #[error("the file is {0:?}, and not free")]
    Later(Phase),
    /// As many mirrors are live as are wanted.
    #[error("as many mirrors are live as are wanted")]
    Whole,
    /// Too few users are left for a copy.
    #[error("too few users are left for a copy")]
    Spent,
}
