//! Records that come to the metadata server, and recalls as records with what their answers say, as parts that rows play.
#![tactic(auto)]

mod incoming_rows;
mod recall_rows;

pub use incoming_rows::MdsReceiveRows;
pub use recall_rows::RecallCallsRows;
