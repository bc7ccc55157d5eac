//! The recall of a layout as a callback in a record, and what its answer says (RFC 8881, sections 20.2, 20.3 and 20.9; RFC
//! 5531).
#![tactic(auto)]

mod answer;
mod laws;
mod ops;
mod record;

pub use answer::recall_answer;
pub use laws::every_recall_call;
pub use record::recall_record;
