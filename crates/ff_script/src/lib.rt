//! The lines of a script, and bytes and pieces as text.
#![tactic(auto)]

mod digits;
mod line;
mod pieces;

pub use digits::Digits;
pub use line::{BareEvent, parse_bare_event};
pub use pieces::{PieceList, cut, decimal_at};
