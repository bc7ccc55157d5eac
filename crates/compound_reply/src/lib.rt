//! The reply to a compound of NFSv4.1, result by result (RFC 8881, section 16.2.4; RFC 5531, section 9).
#![tactic(auto)]

mod record;
mod results;

pub use record::success_record;
pub use results::Results;
