//! Behind an event of a metadata server nothing waits to be sent.
#![tactic(auto)]

mod laws;

pub use laws::{counts_law, quiet_law, recall_law, rest_law};
