//! One layout's writes to all of its mirrors (RFC 8435, sections 5 and 8): sets of places of a file, and the writer that
//! sends the same bytes to every mirror, commits them, and knows which mirror has what.
#![tactic(auto)]

mod call;
mod covering;
mod extents;
mod laws;
mod mirror;
mod mirrors;
mod outstanding;
mod step;
mod write_bytes;
mod writer;

pub use extents::Extents;
pub use laws::writer_law;
pub use step::{WriteStart, WriterStep};
pub use write_bytes::WriteBytes;
pub use writer::Writer;
