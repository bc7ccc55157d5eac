//! Every READ that is answered in a world of a cluster obeys the read law.
#![tactic(auto)]

mod laws;

pub use laws::world_reads;
