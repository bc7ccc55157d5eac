//! The calls of a link that wait for their answers: when each is given up, and which data servers are down.
#![tactic(auto)]

mod law;
mod link_call;
mod link_calls;
mod server_news;

pub use law::link_law;
pub use link_call::{LinkCall, replied_number};
pub use link_calls::LinkCalls;
pub use server_news::ServerNews;
