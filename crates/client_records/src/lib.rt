//! Each record that a client sends has a spelling, and each call a number of its own.
#![tactic(auto)]

mod laws;

pub use laws::client_records;
