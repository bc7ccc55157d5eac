//! The run of a script, line by line, and its trace: whole, brief, or counts alone.
#![tactic(auto)]

mod line;
mod player;
mod script;
mod setup;
mod world;
mod writing;

pub use journal_print::Mode;
pub use line::{Event, Line, parse_line};
pub use script::replay;
pub use setup::Setup;
pub use world::World;
