//! What records are, a line for each.
#![tactic(auto)]

mod shower;

pub use shower::show;
