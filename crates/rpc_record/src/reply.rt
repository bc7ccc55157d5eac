//! RPC replies (RFC 5531, section 9).

use crate::auth::Auth;

/// What a reply says of its call.
#[derive(Clone, Copy, Debug)]
pub enum ReplyBody<'a> {
    /// The call was done, with these results, to the record's end.
    Success(&'a [u8]),
    /// The program is not here.
    ProgUnavail,
    /// The program is here in these versions.
    ProgMismatch { low: u32, high: u32 },
    /// The program has no such procedure.
    ProcUnavail,
    /// The arguments are not in their form.
    GarbageArgs,
    /// The server has a trouble of its own.
    SystemErr,
    /// The RPC version is not one of these.
    RpcMismatch { low: u32, high: u32 },
    /// The caller was not accepted, `auth_stat`.
    AuthError(u32),
}

/// A reply.
#[derive(Clone, Copy, Debug)]
pub struct Reply<'a> {
    /// The number of the call's transaction.
    pub xid: u32,
    /// Of flavor 0 and without bytes in an RPC mismatch and an authentication error, whose bytes
    /// have no place for it.
    pub verf: Auth<'a>,
    pub body: ReplyBody<'a>,
}
