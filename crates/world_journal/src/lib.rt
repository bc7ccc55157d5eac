//! The journal of a world, within its limits.
#![tactic(auto)]

mod fault;
mod journal;
mod packets;

pub use fault::WorldFault;
pub use journal::{Journal, MAX_ENTRIES, MAX_HEX};
pub use packets::push_packets;
