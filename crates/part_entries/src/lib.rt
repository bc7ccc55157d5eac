//! Plays rows of entries: a line of the trace is read as an entry, and printed again.
#![tactic(auto)]

mod answers;
mod entries;
mod events;
mod files;
mod kinds;
mod lists;
mod mirrors;

pub use entries::EntryRows;
pub use kinds::read_entry;
