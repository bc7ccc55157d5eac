//! What the replies of a metadata server stand on.
#![tactic(auto)]

mod laws;

pub use laws::{
    answers_law, effect_law, entries_law, id_law, order_law, period_law, replies_law, returns_law,
};
