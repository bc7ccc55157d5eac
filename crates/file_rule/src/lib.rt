//! The rule by which a metadata server takes a file through its phases: definitions (`specs`), and the plain types that
//! they speak of.
#![tactic(auto)]

mod creation;
mod fresh;
mod worked;

pub use creation::Creation;
pub use fresh::Fresh;
pub use worked::worked_files;
