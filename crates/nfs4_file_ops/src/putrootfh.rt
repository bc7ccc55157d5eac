//! PUTROOTFH: go to the root (RFC 8881, section 18.21). It has no arguments.

use nfs4_types::OpResult;

/// The result, `PUTROOTFH4res`.
pub type PutRootFhRes = OpResult<()>;
