//! The log of a data server: its bodies in XDR, and the server that a log says.
#![tactic(auto)]

mod applying;
mod body;
mod creating;
mod laws;
mod range;
mod replay;
mod storing;
mod wire_tick;

pub use body::LogBody;
pub use laws::log_law;
pub use range::Range;
pub use replay::Replayed;
