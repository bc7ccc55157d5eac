//! The text of a journal: the line of each entry, whole or brief. Different journals have different
//! whole texts.
#![tactic(auto)]

mod counts;
mod data_text;
mod hex_text;
mod lines;
mod lists;
mod mode;
mod print;
mod print_law;
mod same_lines;
mod texts;

pub use counts::put_counts;
pub use mode::Mode;
pub use print::{put_brief, put_entry};
pub use print_law::distinct_prints;
pub use same_lines::brief_law;
pub use texts::put_numbered;
