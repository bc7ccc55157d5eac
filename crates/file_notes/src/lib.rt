//! What a metadata server notes of a file: the sizes that its mirrors show, and what the entries of a step tell (RFC 8435, section
//! 2.1).
#![tactic(auto)]

mod sizes;
mod told;

pub use sizes::{attributes_shown, fileid_of, keep_live, set_size, size_of_first};
pub use told::{count_periods, has_period_end, has_swap};
