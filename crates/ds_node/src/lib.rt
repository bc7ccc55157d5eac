//! A data server that serves over a link, and keeps its word over crashes.
#![tactic(auto)]

mod node;
mod serve;

pub use serve::serve_ds;
