//! What a metadata server grants and what its client reads are one.
#![tactic(auto)]

mod laws;

pub use laws::same_layout;
