//! Names, owners and bodies, and their limits.

use ff_xdr::Opaque;

/// The longest owner, server scope or major id, in bytes (RFC 8881, section 3.1, `NFS4_OPAQUE_LIMIT`).
pub const MAX_OPAQUE4: u32 = 1_024;

/// The name of a file in a directory (RFC 8881, section 3.2, `component4`). It is bytes with no maximum but that of their
/// length's word. That a name is empty or no UTF-8 is for the operation to refuse (section 14.5), and no matter of form.
pub type Component4<'a> = Opaque<'a, { u32::MAX }>;

/// An owner of a client or of an open, a server's scope or major id: at most 1,024 bytes (RFC 8881,
/// sections 3.3.10, 18.35).
pub type Owner4<'a> = Opaque<'a, MAX_OPAQUE4>;

/// The data of a READ or WRITE, the values of attributes, or a body that is a layout type's own. It has
/// no maximum but that of its length's word.
pub type OpaqueBody<'a> = Opaque<'a, { u32::MAX }>;
