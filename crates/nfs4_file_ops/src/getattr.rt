//! GETATTR: get attributes (RFC 8881, section 18.7).

use crate::Fattr4;
use nfs4_types::{Bitmap, OpResult};

/// The arguments, `GETATTR4args`: which attributes are wanted.
pub type GetAttr4Args<'a> = Bitmap<'a>;

/// The result, `GETATTR4res`.
pub type GetAttr4Res<'a> = OpResult<Fattr4<'a>>;
