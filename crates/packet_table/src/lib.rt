//! The packets that the machines of a world have sent.
#![tactic(auto)]

mod key;
mod line;
mod lines;
mod note;
mod packets;
mod waiting;

pub use note::PacketNote;
pub use packets::Packets;
