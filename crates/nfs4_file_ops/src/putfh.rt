//! PUTFH: set the current handle (RFC 8881, section 18.19).

use nfs4_types::{Handle4, OpResult};

/// The arguments, `PUTFH4args`: the handle.
pub type PutFhArgs<'a> = Handle4<'a>;

/// The result, `PUTFH4res`.
pub type PutFhRes = OpResult<()>;
