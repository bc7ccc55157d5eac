//! One walk through the whole rule of a metadata server.
#![tactic(auto)]

mod laws;

pub use laws::table_law;
