//! What one file at the metadata server has under way: its calls, and what their answers bring.
#![tactic(auto)]

mod activity;
mod copying;
mod fencing;
mod laws;
mod sending;
mod settling;

pub use activity::Activity;
pub use copying::{step_copy, take_reply, take_timeout};
pub use fencing::{answer_fence, room_for_ids, step_fence};
pub use laws::first_calls;
pub use sending::{FileCall, FileCallKind};
pub use settling::{
    after_loss, begin_copy, commit_failed, lose_source, see_at_source, shown_by_commit,
};
