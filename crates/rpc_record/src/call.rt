//! RPC calls (RFC 5531, section 9).

use crate::auth::Auth;
use ff_xdr::XdrError;
use thiserror::Error;

/// The version of RPC (RFC 5531, section 9).
pub const RPC_VERSION: u32 = 2;

/// The program's number of NFS, of all its versions (RFC 1813, section 2.1; RFC 8881, section 1.3).
pub const NFS_PROGRAM: u32 = 100_003;

/// A call, `call_body` behind the transaction's number.
#[derive(Clone, Copy, Debug)]
pub struct Call<'a> {
    /// The transaction's number, which the reply repeats.
    pub xid: u32,
    pub program: u32,
    pub version: u32,
    pub procedure: u32,
    pub cred: Auth<'a>,
    pub verf: Auth<'a>,
    /// The procedure's arguments, to the record's end.
    pub args: &'a [u8],
}

/// Why a record is not a call that can be answered by its program.
#[derive(Clone, Copy, Debug, PartialEq, Eq, Error)]
pub enum CallFault {
    /// Fewer than eight bytes stand, or the second word is not 0: no call, and no reply is due.
    #[error("the record is no call")]
    NotACall,
    /// The third word is not 2.
    #[error("call {xid} is of another RPC version than 2")]
    RpcVersion { xid: u32 },
    /// The rest of the header is not in its form.
    #[error("the header of call {xid} is not in its form: {error}")]
    Bad { xid: u32, error: XdrError },
}
