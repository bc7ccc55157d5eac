//! What a SETATTR names (RFC 1813, section 3.3.2).

use crate::tick::Tick;

/// What a time is set to (RFC 1813, section 2.5, `time_how`).
#[derive(Clone, Copy, Debug, PartialEq, Eq)]
pub enum NewTime {
    /// It stays.
    Keep,
    /// The moment of the change.
    Now,
    /// This moment.
    At(Tick),
}

/// The attributes that are set; an absent one stays.
#[derive(Clone, Copy, Debug, PartialEq, Eq)]
pub struct Changes {
    pub owner: Option<u32>,
    pub group: Option<u32>,
    /// The permission bits, below 4,096.
    pub mode: Option<u32>,
    pub atime: NewTime,
    pub mtime: NewTime,
}
