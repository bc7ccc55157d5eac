//! PUTFH: the object of a filehandle becomes the current one (RFC 8881, section 18.19).

ghost use Rattle.std.specs.Prelude.{◌≢◌, IfErr};
ghost use Rattle.mds_refusals.specs.Orders.{Takes};
ghost use Rattle.mds_refusals.specs.PutFh.{put_fh_order, object_of};
ghost use Rattle.nfs4_types.specs.declared.status.Stat4.TheVariants.{Ok};

use crate::Object;
use cluster_model::FileId;
use nfs4_types::{Stat4, file_number};

/// The object of this handle, where the files are those from 1 to `files`.
///
/// # Errors
/// BADHANDLE where it has not eight bytes, STALE where it is of no object.
pub fn try_put_fh(handle: &[u8], files: u32) -> Result<Object, Stat4>
    ensures takes { Takes (put_fh_order handle.now files) (object_of handle.now) result }
    ensures refuses { IfErr result (λ status. status ≢ Ok) }
{
    let number = file_number(handle).ok_or(Stat4::BadHandle)?;
    if number == 0 {
        return Ok(Object::Root);
    }
    match u32::try_from(number) {
        Ok(file) if file <= files => Ok(Object::File(FileId(file))),
        _ => Err(Stat4::Stale),
    }
}
