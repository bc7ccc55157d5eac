//! Streams of bytes, and RPC calls and replies (RFC 5531).
#![tactic(auto)]

mod auth;
mod auth_wire;
mod call;
mod call_wire;
mod frame_law;
mod frames;
mod laws;
mod memory;
mod reply;
mod reply_arms;
mod reply_wire;
mod standard;
mod stream;
mod sure;

pub use auth::{AUTH_NONE, AUTH_SYS, Auth, AuthSys, MAX_BODY};
pub use call::{Call, CallFault, NFS_PROGRAM, RPC_VERSION};
pub use frame_law::every_stream;
pub use frames::{Frames, MAX_FRAGMENTS, MAX_RECORD, RecordFault, put_record};
pub use laws::every_message;
pub use memory::{MemorySink, MemorySource};
pub use reply::{Reply, ReplyBody};
pub use standard::{StdSink, StdSource};
pub use stream::{Failed, Sink, Source};
pub use sure::{SureSink, SureSource};
