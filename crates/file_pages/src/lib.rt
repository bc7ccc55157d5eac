//! The bytes of a file as pages of 4,096 bytes, of which only those that something was written to are kept.
#![tactic(auto)]

mod adopt;
mod find;
mod page;
mod pages;
mod read;
mod write;

pub use pages::Pages;
