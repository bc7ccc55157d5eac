//! LAYOUTCOMMIT: what was written under a layout is to be seen (RFC 8881, section 18.42).

ghost use Rattle.std.specs.Prelude.{◌≢◌, IfErr};
ghost use Rattle.mds_refusals.specs.Orders.{Takes, file_of};
ghost use Rattle.mds_refusals.specs.LayoutCommit.{layout_commit_order};
ghost use Rattle.nfs4_types.specs.declared.status.Stat4.TheVariants.{Ok};

use crate::{Named, Object};
use cluster_model::FileId;
use nfs4_types::Stat4;

/// The file whose layout is named, where the stateid names this at it. Nothing is left to do: the sizes of a file are those
/// that its mirrors show (RFC 8435, section 2.1).
///
/// # Errors
/// NOFILEHANDLE, BAD_STATEID where the stateid does not name the client's layout of the file, in this order.
pub fn try_layout_commit(current: Option<Object>, named: Named) -> Result<FileId, Stat4>
    ensures takes { Takes (layout_commit_order current named) (file_of current) result }
    ensures refuses { IfErr result (λ status. status ≢ Ok) }
{
    match (current, named) {
        (None, _) => Err(Stat4::NoFileHandle),
        (Some(Object::File(file)), Named::Layout) => Ok(file),
        _ => Err(Stat4::BadStateid),
    }
}
