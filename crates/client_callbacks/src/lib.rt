//! The callbacks of a client: recalls of its layout (RFC 8881, section 20).
#![tactic(auto)]

mod callback;
mod cb_ops;
mod recall;

pub use callback::take_callback;
