//! What a handle names.

use nfs3_wire::Stat3;

/// What a handle names.
#[derive(Clone, Copy)]
pub enum Place {
    /// Nothing, or it is no handle of this server.
    Missing(Stat3),
    Root,
    /// The file at this index.
    File(usize),
}
