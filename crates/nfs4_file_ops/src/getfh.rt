//! GETFH: get the current handle (RFC 8881, section 18.8). It has no arguments.

use nfs4_types::{Handle4, OpResult};

/// The result, `GETFH4res`.
pub type GetFhRes<'a> = OpResult<Handle4<'a>>;
