//! Where a file stands at the metadata server: who holds it, and which mirrors are live (RFC 8435, section 2.2).
#![tactic(auto)]

mod copies;
mod file_state;
mod grant;

pub use file_state::FileState;
pub use grant::{AddMirrorFault, Grant, GrantFault, ReturnFault};
