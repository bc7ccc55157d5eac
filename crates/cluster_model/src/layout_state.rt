//! Where a file stands at the metadata server (RFC 8435, section 2.2).

use crate::ids::{Cred, NodeId};
use crate::mirrors::Mirrors;

/// What a fence follows.
#[derive(Clone, Copy, Debug, PartialEq, Eq)]
pub enum FenceEnd {
    /// A period at whose end the mirrors agree.
    Clean,
    /// A period at whose end they may differ.
    Dirty,
    /// A copy, whose targets came into the live list.
    Copied,
}

/// What a copy is for.
#[derive(Clone, Copy, Debug, PartialEq, Eq)]
pub enum CopyKind {
    /// Each live mirror but the first gets a fresh file in its place.
    Replacing,
    /// Mirrors join, up to the number that the file is to have.
    Adding,
}

/// A phase, and what belongs to it.
#[derive(Clone, Copy, Debug, PartialEq, Eq)]
pub enum LayoutPhase {
    Making,
    Free,
    /// Held by a client or by the metadata server; a client's layout may be recalled.
    Held { holder: NodeId, recalled: bool },
    /// The mirrors are given to the user `next`.
    Fencing { next: Cred, end: FenceEnd },
    Settling { copies: CopyKind },
    /// The targets are written by the user `copier`.
    Copying { copier: Cred, copies: CopyKind },
}

/// One file: the number of mirrors that it is to have, the user of its period (the owner of its mirrors that the last
/// fence or CREATE set), its live mirrors with the ctimes last seen, and its phase.
#[derive(Clone, Copy, Debug, PartialEq, Eq)]
pub struct LayoutState {
    pub wanted: u32,
    pub cred: Cred,
    pub live: Mirrors,
    pub phase: LayoutPhase,
}

/// For each place in a live list, whether its mirror is reported; false past the end.
#[derive(Clone, Copy, Debug, PartialEq, Eq)]
pub struct Reported {
    pub places: [bool; 4],
}
