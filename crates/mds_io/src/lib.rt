//! What the metadata server reads and writes itself, at the live mirrors of a file (RFC 8881, sections 18.22 and 18.32).
#![tactic(auto)]

mod laws;
mod own_write;
mod read;
mod read_end;

pub use laws::{own_write_law, read_law};
pub use own_write::MdsWrite;
pub use read::MdsRead;
pub use read_end::{Failure, Failures, ReadEnd};
