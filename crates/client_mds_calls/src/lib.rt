//! The calls of a client to its metadata server, and what their replies come to, as compounds of NFSv4.1
//! in records (RFC 8881, RFC 5531).
#![tactic(auto)]

mod answer;
mod ask;
mod asked;
mod call;
mod laws;
mod record;
mod reply;
mod slot;

pub use answer::mds_reply_of;
pub use ask::MdsAsk;
pub use call::{MdsCall, SlotCall};
pub use client_file_calls::{FailedMirror, LayoutGrant, OpenFile};
pub use laws::every_mds_call;
pub use record::{fits, put_mds_call};
pub use reply::{MdsAnswer, MdsReply, SlotReport};
