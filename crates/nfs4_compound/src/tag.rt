//! Tags.

use ff_xdr::Text;

/// The longest tag, in bytes, which is a limit of the project's own.
pub const MAX_TAG4: u32 = 1_024;

/// What a compound bears for its reader, and its result again (RFC 8881, section 16.2.3).
pub type Tag4<'a> = Text<'a, MAX_TAG4>;
