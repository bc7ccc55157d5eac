//! The script that is generated for a number: the same lines on each machine.
#![tactic(auto)]

mod draws;
mod line;
mod script;
mod script_law;

pub use script::generate;
pub use script_law::generated_law;
