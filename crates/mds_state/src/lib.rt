//! What a metadata server has, and what comes of the inputs of the table of phases to its files (RFC 8881, section 12.5.5;
//! RFC 8435, section 2.2).
#![tactic(auto)]

mod clients;
mod inputs;
mod servers;
mod state;

pub use clients::{confirm, confirmed_node, end_client, end_periods};
pub use inputs::{ask_back, can_draw, end_recall, take_input};
pub use servers::ServerList;
pub use state::State;
