//! What the replies of a metadata server tell a slot, beside their answer.
#![tactic(auto)]

mod laws;

pub use laws::slot_reports;
