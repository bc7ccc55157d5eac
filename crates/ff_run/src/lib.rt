//! The program over any source, sink, notes, link and clock: what its words ask for, what is done, and what is said of it.
#![tactic(auto)]

mod program;
mod serving;

pub use program::{ProgramEnd, end_without_words, run};
pub use serving::{Task, serve};
