//! Recalls of layouts: which are under way, what goes to which client next, and what its answers come to (RFC 8881,
//! sections 12.5.5 and 20.3).
#![tactic(auto)]

mod entries;
mod kept_recall;
mod laws;
mod recall;
mod recalls;

pub use laws::recall_law;
pub use recall::{AskFault, Outcome, RECALL_TIME, Recall, RecallCall, RecallStage};
pub use recalls::Recalls;
