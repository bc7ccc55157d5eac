//! In which order a metadata server gives ids and sessions.
#![tactic(auto)]

mod laws;

pub use laws::session_order;
