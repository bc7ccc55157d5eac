//! What a data server that keeps its word comes to over calls that are stopped amid their disks' work, crashes, and openings.
#![tactic(auto)]

mod steady;
mod steps;
mod trial;

pub use steps::{StoreStep, TryEnd, TryFault};
pub use trial::try_store;
