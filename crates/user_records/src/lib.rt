//! A record that names another procedure than SETATTR and CREATE does no more to a data server than a user's call.
#![tactic(auto)]

mod laws;

pub use laws::user_records;
