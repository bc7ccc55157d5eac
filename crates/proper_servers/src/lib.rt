//! What every data server of a cluster meets.
#![tactic(auto)]

mod laws;

pub use laws::proper_servers;
