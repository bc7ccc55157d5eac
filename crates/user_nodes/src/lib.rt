//! A client that puts a file, or gets it, as a node.
#![tactic(auto)]

mod asks;
mod get;
mod law;
mod pieces;
mod put;
mod user;

pub use get::run_get;
pub use law::copies_law;
pub use put::run_put;
