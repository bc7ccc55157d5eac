//! The calls of a metadata server that are outstanding, by their numbers.
#![tactic(auto)]

mod awaited_call;
mod calls;
mod kept_call;

pub use awaited_call::{AwaitedCall, SentTo};
pub use calls::Calls;
pub use kept_call::KeptCall;
