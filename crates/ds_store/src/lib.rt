//! A data server that keeps its word over crashes: each call is on its disks before it is answered.
#![tactic(auto)]

mod fault;
mod kept;
mod opening;
mod renewing;
mod settling;
mod staging;
mod store;

pub use fault::{OpenCause, StoreFault};
pub use kept::KeptServer;
pub use store::{OpenFault, Store};
