//! What comes of the answers to a metadata server's calls, and of timeouts (RFC 8881, sections 12.5.5, 18.22, 18.32 and 20.3; RFC
//! 1813, section 3.3).
#![tactic(auto)]

mod answers;
mod awaited;
mod reads;
mod timeouts;
mod writes;

pub use answers::take_answer;
pub use awaited::is_awaited;
pub use timeouts::time_out;
