//! A client's calls to its metadata server on itself and its session, and what their results say: one file
//! each (RFC 8881).
#![tactic(auto)]

mod create_session;
mod exchange_id;
mod reclaim_complete;
mod renew;

pub use create_session::{create_session_results, put_create_session};
pub use exchange_id::{ClientGiven, exchange_id_results, put_exchange_id};
pub use reclaim_complete::{put_reclaim_complete, reclaim_complete_results};
pub use renew::{put_renew, renew_results};
