//! A snapshot of a data server: the bodies that a new log of it begins with.
#![tactic(auto)]

mod chunk;
mod files;
mod laws;
mod size;
mod snapshot;

pub use laws::snapshot_law;
pub use size::{file_size, snapshot_size};
pub use snapshot::Snapshot;
