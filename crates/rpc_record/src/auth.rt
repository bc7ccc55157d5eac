//! Who calls (RFC 5531, section 8.2 and appendix A).

use ff_xdr::Items;

/// The flavor of a call that says nothing about its caller.
pub const AUTH_NONE: u32 = 0;

/// The flavor of a call that names its caller's user and groups.
pub const AUTH_SYS: u32 = 1;

/// The most bytes in the body of an `Auth`.
pub const MAX_BODY: u32 = 400;

/// A flavor and its body, `opaque_auth` (RFC 5531, section 8.2).
#[derive(Clone, Copy, Debug)]
pub struct Auth<'a> {
    pub flavor: u32,
    /// At most 400 bytes.
    pub body: &'a [u8],
}

/// A user and its groups, `authsys_parms` (RFC 5531, appendix A).
#[derive(Clone, Copy, Debug)]
pub struct AuthSys<'a> {
    pub stamp: u32,
    /// The caller's machine, at most 255 bytes.
    pub machine: &'a [u8],
    pub uid: u32,
    pub gid: u32,
    /// Further groups, at most 16.
    pub gids: Items<'a, u32>,
}
