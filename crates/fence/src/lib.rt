//! The fence of a file: its mirrors are given to a fresh uid, so that nobody can write under the old one (RFC 8435,
//! section 2.2).
#![tactic(auto)]

mod fence;
mod laws;
mod mirror;

pub use cluster_model::FenceStep;
pub use fence::{Fence, FenceSet};
pub use laws::fence_history;
