//! LOOKUP: go to a name in the current directory (RFC 8881, section 18.13).

use nfs4_types::{Component4, OpResult};

/// The arguments, `LOOKUP4args`: the name, which may be any bytes.
pub type Lookup4Args<'a> = Component4<'a>;

/// The result, `LOOKUP4res`.
pub type Lookup4Res = OpResult<()>;
