//! One file at the metadata server, with the calls that it has under way.
#![tactic(auto)]

mod answers;
mod copying;
mod input;
mod mds_file;
mod settling;
mod steps;
mod taking;

pub use input::FileInput;
pub use mds_activity::{FileCall, FileCallKind};
pub use mds_file::MdsFile;
pub use mds_rows::has_fresh;
