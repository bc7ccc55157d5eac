//! What a metadata server enters and sends is in form.
#![tactic(auto)]

mod laws;

pub use laws::mds_forms;
