//! Calls as records, what replies come to, records out of streams, and tables of devices, as parts that rows play.
#![tactic(auto)]

mod addresses;
mod devices;
mod ds_rows;
mod frames;
mod mds_answers;
mod mds_asks;
mod mds_rows;
mod mds_words;

pub use devices::DevicesRows;
pub use ds_rows::DsCallsRows;
pub use frames::FramesRows;
pub use mds_rows::MdsCallsRows;
