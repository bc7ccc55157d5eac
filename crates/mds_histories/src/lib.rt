//! The history of a metadata server's run: what came to it, what it entered and what it sent, in order.
#![tactic(auto)]

mod laws;

pub use laws::mds_histories;
