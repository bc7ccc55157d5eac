//! COMMIT: what was written is to be on stable storage (RFC 8881, section 18.3).

ghost use Rattle.std.specs.Prelude.{◌≢◌, IfErr};
ghost use Rattle.mds_refusals.specs.Orders.{Takes, file_of};
ghost use Rattle.mds_refusals.specs.Commit.{commit_order};
ghost use Rattle.nfs4_types.specs.declared.status.Stat4.TheVariants.{Ok};

use crate::Object;
use cluster_model::FileId;
use nfs4_types::Stat4;

/// The file. Each WRITE was stable when it was answered, so nothing is left to do.
///
/// # Errors
/// NOFILEHANDLE, ISDIR at the root, in this order.
pub fn try_commit(current: Option<Object>) -> Result<FileId, Stat4>
    ensures takes { Takes (commit_order current) (file_of current) result }
    ensures refuses { IfErr result (λ status. status ≢ Ok) }
{
    match current {
        None => Err(Stat4::NoFileHandle),
        Some(Object::Root) => Err(Stat4::IsDir),
        Some(Object::File(file)) => Ok(file),
    }
}
