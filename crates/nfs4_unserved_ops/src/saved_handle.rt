//! SAVEFH and RESTOREFH: the current handle is kept, and becomes the current one again (RFC 8881, sections 18.28 and 18.27).
//! They have no arguments.

use nfs4_types::OpResult;

/// The result, `SAVEFH4res`.
pub type SaveFhRes = OpResult<()>;

/// The result, `RESTOREFH4res`.
pub type RestoreFhRes = OpResult<()>;
