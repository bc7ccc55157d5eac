//! Periods that end as returned, at the place of the end, in every run of a metadata server to which clients of this cluster call.
#![tactic(auto)]

mod laws;

pub use laws::returned_ends;
