//! CLOSE: an open ends (RFC 8881, section 18.2).

ghost use Rattle.std.specs.Prelude.{◌≢◌, IfErr};
ghost use Rattle.mds_refusals.specs.Orders.{Takes, file_of};
ghost use Rattle.mds_refusals.specs.Close.{close_order};
ghost use Rattle.nfs4_types.specs.declared.status.Stat4.TheVariants.{Ok};

use crate::{Named, Object};
use cluster_model::FileId;
use nfs4_types::Stat4;

/// The file whose open ends, where the stateid names this at it.
///
/// # Errors
/// NOFILEHANDLE, BAD_STATEID where the stateid does not name the client's open of the file, in this order.
pub fn try_close(current: Option<Object>, named: Named) -> Result<FileId, Stat4>
    ensures takes { Takes (close_order current named) (file_of current) result }
    ensures refuses { IfErr result (λ status. status ≢ Ok) }
{
    match (current, named) {
        (None, _) => Err(Stat4::NoFileHandle),
        (Some(Object::File(file)), Named::Open) => Ok(file),
        _ => Err(Stat4::BadStateid),
    }
}
