//! A write that is covered by packets is one that the mirror has had before a COMMIT.
#![tactic(auto)]

mod laws;

pub use laws::covered_writes;
