//! The files that are made at data servers for a new file.
#![tactic(auto)]

mod creations;

pub use creations::Creations;
