//! The messages of the cluster as a part that rows play: bytes in a form are answered by the value that they are, or
//! by where and why they are none.
#![tactic(auto)]

mod asked;
mod compounds;
mod fits;
mod forms;
mod identifiers;
mod items;
mod part;
mod procedures;
mod results;
mod rpc;
mod show;
mod walk;

pub use part::MessageRows;
