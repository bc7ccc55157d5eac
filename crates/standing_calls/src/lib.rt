//! Each call that something awaits stands among those that were sent and are not answered.
#![tactic(auto)]

mod laws;

pub use laws::stands_law;
