//! Where one call of the metadata server to a data server stands: it is sent until it is answered or given up.
#![tactic(auto)]

mod stage;

pub use stage::{is_kept, is_kept_out, is_out, is_over, kept_out_to, stage_at_tick, waits};
