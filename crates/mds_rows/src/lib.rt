//! The rows of the table of phases as code: a file's state behind each, its entries, the plan of a copy, and what is drawn.
#![tactic(auto)]

mod fresh;
mod plan;
mod rows;

pub use fresh::{has_fresh, uids_left};
pub use plan::plan_of;
pub use rows::{ask, finish_fence, finish_own, lose, make, revoke, settle, swap_in, take_back};
