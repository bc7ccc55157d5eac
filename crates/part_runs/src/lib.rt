//! Plays rows of runs: of the whole program over memory, of configurations, and of lines of scripts. It also gives what
//! `replay` and `show` print of a text.
#![tactic(auto)]

mod arrivals;
mod configs;
mod lines;
mod printed;
mod program;
mod runs;
mod text;

pub use configs::ConfigRows;
pub use lines::LineRows;
pub use printed::{briefly, replayed, shown};
pub use runs::RunRows;
