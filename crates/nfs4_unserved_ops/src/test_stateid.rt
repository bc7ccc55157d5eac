//! TEST_STATEID: which stateids are valid (RFC 8881, section 18.48).

use ff_xdr::Array;
use nfs4_types::{OpResult, Stateid};

/// The arguments, `TEST_STATEID4args`: the stateids that are asked of.
pub type TestStateidArgs<'a> = Array<'a, Stateid, { u32::MAX }>;

/// The result, `TEST_STATEID4res`: the number of a status for each.
pub type TestStateidRes<'a> = OpResult<Array<'a, u32, { u32::MAX }>>;
