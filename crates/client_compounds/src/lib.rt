//! What the compounds of a client to its metadata server have in common: the header, SEQUENCE in front, the
//! arguments as a whole, and the list of results (RFC 8881, RFC 5531).
#![tactic(auto)]

mod header;
mod ops;
mod results;

pub use header::{put_body, put_start};
pub use ops::{Start, put_ops, sequence_op};
pub use results::{CompoundResults, Few, few_of, sequence_ok};
