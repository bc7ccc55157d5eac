//! What a READ asks for.

/// A READ: under which number it goes, of which file, and which bytes it asks for (RFC 8881, section 18.22; RFC 1813,
/// section 3.3.6).
#[derive(Clone, Copy, Debug, PartialEq, Eq)]
pub struct ReadCall {
    /// The transaction's number, which the reply repeats (RFC 5531, section 9).
    pub xid: u32,
    /// The number that the eight bytes of the file's handle spell, the highest first.
    pub handle: u64,
    /// From which byte of the file on, counted from 0.
    pub offset: u64,
    /// How many bytes at the most.
    pub count: u32,
}
