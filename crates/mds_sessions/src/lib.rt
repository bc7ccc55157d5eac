//! The operations on clients and sessions, as a metadata server runs them (RFC 8881, sections 18.34 to 18.37, 18.50 and 18.51).
#![tactic(auto)]

mod bind;
mod create;
mod destroy;
mod exchange;
mod reclaim;

pub use bind::bind_conn_to_session;
pub use create::create_session;
pub use destroy::{destroy_client, destroy_session};
pub use exchange::exchange_id;
pub use reclaim::complete_reclaim;
