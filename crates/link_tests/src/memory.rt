//! Streams over memory, and what goes over them.

use record_link::MemoryStream;
use std::alloc::Global;
use std::test::Fail;

/// A stream of these bytes, which moves so many at a time; at 0 it would block.
pub fn stream(alloc: Global, bytes: &[u8], sizes: &[usize]) -> Result<MemoryStream, Fail> {
    Ok(MemoryStream::new(alloc, bytes.to_vec(alloc)?, sizes.to_vec(alloc)?))
}

/// The record `one` as one fragment (RFC 5531, section 11).
pub const ONE: [u8; 7] = [0x80, 0, 0, 3, b'o', b'n', b'e'];

/// The records `one` and `four`.
pub const ONE_FOUR: [u8; 15] = [
    0x80, 0, 0, 3, b'o', b'n', b'e', 0x80, 0, 0, 4, b'f', b'o', b'u', b'r',
];

/// The header of a record that is too long.
pub const TOO_LONG: [u8; 4] = [0xff; 4];

/// The beginning of a call, and of the reply to it (RFC 5531, section 9).
pub const CALL: [u8; 8] = [0, 0, 0, 7, 0, 0, 0, 0];

pub const REPLY: [u8; 8] = [0, 0, 0, 7, 0, 0, 0, 1];

/// The beginning of the next call.
pub const NEXT_CALL: [u8; 8] = [0, 0, 0, 8, 0, 0, 0, 0];

/// The beginning of a READ of NFSv3, up to its procedure (RFC 1813, section 3.3.6).
pub const READ: [u8; 24] = [
    0, 0, 0, 7, 0, 0, 0, 0, 0, 0, 0, 2, 0, 1, 0x86, 0xa3, 0, 0, 0, 3, 0, 0, 0, 6,
];

/// The same as records.
pub const CALL_RECORD: [u8; 12] = [0x80, 0, 0, 8, 0, 0, 0, 7, 0, 0, 0, 0];

pub const REPLY_RECORD: [u8; 12] = [0x80, 0, 0, 8, 0, 0, 0, 7, 0, 0, 0, 1];

/// The reply to this call twice, and one to a call that nobody made.
pub const REPLIES: [u8; 36] = [
    0x80, 0, 0, 8, 0, 0, 0, 7, 0, 0, 0, 1, 0x80, 0, 0, 8, 0, 0, 0, 7, 0, 0, 0, 1, 0x80, 0, 0, 8, 0,
    0, 0, 9, 0, 0, 0, 1,
];

/// Nothing moves for three seconds.
pub const NEVER: [usize; 30] = [0; 30];
