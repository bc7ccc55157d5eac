//! What of a step of a data server is to be logged before it is answered.
#![tactic(auto)]

mod body;
mod held;
mod join;
mod laws;
mod ranges;
mod span;
mod stable;
mod steps;

pub use held::{HeldRange, put_held};
pub use laws::changes_law;
pub use steps::log_body;
