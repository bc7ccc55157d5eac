//! What a client's compounds stand on, one layout at a time, and what it enters under a layout.
#![tactic(auto)]

mod laws;

pub use laws::{client_sessions, entered_files, fitting_calls, session_rounds};
