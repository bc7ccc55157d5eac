//! FREE_STATEID: a stateid is done with (RFC 8881, section 18.38).

use nfs4_types::{OpResult, Stateid};

/// The arguments, `FREE_STATEID4args`.
pub type FreeStateidArgs = Stateid;

/// The result, `FREE_STATEID4res`.
pub type FreeStateidRes = OpResult<()>;
