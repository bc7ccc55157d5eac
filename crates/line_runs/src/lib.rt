//! Runs over the lines of a source: each line is played in its turn, and the text that it adds is
//! written to a sink.
#![tactic(auto)]

mod end;
mod lines;
mod lines_law;
mod playback;
mod task;
mod writing;

pub use end::{LineStep, RunEnd};
pub use lines::{Ended, LineBuffer};
pub use lines_law::line_laws;
pub use playback::run_lines;
pub use task::LineTask;
pub use writing::write_all;
