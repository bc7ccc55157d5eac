//! READ, WRITE and COMMIT, as a metadata server runs them (RFC 8881, sections 18.3, 18.22 and 18.32).
#![tactic(auto)]

mod commits;
mod reads;
mod writes;

pub use commits::commit;
pub use reads::read;
pub use writes::{write, write_result};
