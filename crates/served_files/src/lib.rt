//! The files of a metadata server, with the compounds that wait for their data servers (RFC 8881, sections 18.22 and 18.32;
//! RFC 8435, section 2.2).
#![tactic(auto)]

mod file;
mod files;
mod names;
mod reading;
mod sending;
mod tickets;
mod touched;
mod waiting_reads;
mod writing;

pub use file::ServedFile;
pub use files::{Files, MAX_FILES};
pub use reading::{EndedRead, WaitingRead};
pub use sending::SentByFile;
pub use waiting_reads::WaitingReads;
pub use writing::{EndedWrite, WaitingWrite};
