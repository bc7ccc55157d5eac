//! DESTROY_SESSION: end a session (RFC 8881, section 18.37).

use nfs4_types::{OpResult, SessionId};

/// The arguments, `DESTROY_SESSION4args`.
pub type DestroySessionArgs = SessionId;

/// The result, `DESTROY_SESSION4res`.
pub type DestroySessionRes = OpResult<()>;
