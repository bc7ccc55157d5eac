//! RECLAIM_COMPLETE: nothing is reclaimed any more (RFC 8881, section 18.51).

use nfs4_types::OpResult;

/// The arguments, `RECLAIM_COMPLETE4args`: of one file system alone.
pub type ReclaimCompleteArgs = bool;

/// The result, `RECLAIM_COMPLETE4res`.
pub type ReclaimCompleteRes = OpResult<()>;
