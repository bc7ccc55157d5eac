//! What a record is to the metadata server: a call that is refused, a compound to be run, a reply, or nothing (RFC 5531,
//! sections 8 and 9; RFC 8881, section 16).
#![tactic(auto)]

mod compound;
mod header;
mod incoming;
mod laws;
mod refusal;

pub use header::receive_record;
pub use incoming::Incoming;
pub use laws::receive_law;
