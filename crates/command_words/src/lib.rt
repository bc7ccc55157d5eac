//! What the words behind a program's name ask for.
#![tactic(auto)]

mod command;
mod grammar;
mod law;
mod words;

pub use command::Command;
pub use law::commands_law;
pub use words::asked;
