//! What the errors of a LAYOUTRETURN report of a file's mirrors.
#![tactic(auto)]

mod report;

pub use report::report_of;
