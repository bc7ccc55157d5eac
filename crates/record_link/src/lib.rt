//! Connections as pure machines: bytes that come in and records that are handed out, messages that are
//! put and the bytes that go out (RFC 5531, section 11).
#![tactic(auto)]

mod ahead;
mod connection;
mod memory_stream;
mod message;
mod outgoing;
mod peer;
mod stream;
mod stream_connection;

pub use connection::Connection;
pub use memory_stream::MemoryStream;
pub use message::{is_call_record, is_reply_record};
pub use peer::Peer;
pub use stream::{Halt, Stream};
