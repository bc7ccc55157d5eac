//! A file's bytes as pages, as rows play them.
#![tactic(auto)]

mod pages;

pub use pages::PagesRows;
