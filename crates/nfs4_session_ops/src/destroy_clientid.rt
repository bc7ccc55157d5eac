//! DESTROY_CLIENTID: a client is no more (RFC 8881, section 18.50).

use nfs4_types::OpResult;

/// The arguments, `DESTROY_CLIENTID4args`: the client.
pub type DestroyClientIdArgs = u64;

/// The result, `DESTROY_CLIENTID4res`.
pub type DestroyClientIdRes = OpResult<()>;
