//! What clients have open at the metadata server, and the stateids of it (RFC 8881, sections 8.2, 18.2 and 18.16).
#![tactic(auto)]

mod client_opens;
mod laws;
mod open;
mod opens;

pub use laws::{one_client_law, opens_law};
pub use open::{MAX_OPENS, Open, OpenFault, next_seqid};
pub use opens::Opens;
