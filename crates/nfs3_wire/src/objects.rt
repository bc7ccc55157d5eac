//! How calls name objects, and the limits of NFSv3's items.

use ff_xdr::Opaque;

/// The longest handle, in bytes (RFC 1813, section 2.4, `NFS3_FHSIZE`).
pub const MAX_HANDLE: u32 = 64;

/// The longest name, in bytes: `filename3` has no maximum but that of its length's word (RFC 1813,
/// section 2.5).
pub const MAX_NAME: u32 = 4_294_967_295;

/// The most data in one READ or WRITE, in bytes.
pub const MAX_DATA: u32 = 1_048_576;

/// The handle of an object, `nfs_fh3` (RFC 1813, section 2.5).
pub type Handle<'a> = Opaque<'a, MAX_HANDLE>;

/// A name, `filename3` (RFC 1813, section 2.5).
pub type Name<'a> = Opaque<'a, MAX_NAME>;

/// The data of a READ or a WRITE (RFC 1813, sections 3.3.6 and 3.3.7).
pub type Bytes<'a> = Opaque<'a, MAX_DATA>;
