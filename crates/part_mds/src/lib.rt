//! What clients have open, and the operations on files, as rows play them.
#![tactic(auto)]

mod files;
mod layouts;
mod opens;
mod operations;
mod said;

pub use files::FileRows;
pub use opens::OpensRows;
pub use operations::OperationRows;
