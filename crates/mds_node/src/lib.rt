//! A metadata server that serves over a link.
#![tactic(auto)]

mod node;
mod serve;

pub use serve::serve_mds;
