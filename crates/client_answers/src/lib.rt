//! What the answers of the metadata server and of data servers mean to a client (RFC 8881, section 12; RFC 8435).
#![tactic(auto)]

mod answers;
mod late;
mod learn;
mod lost;
mod mirrors;
mod replies;
mod told;

pub use late::ds_timed_out;
pub use mirrors::ds_answered;
pub use replies::mds_answered;
