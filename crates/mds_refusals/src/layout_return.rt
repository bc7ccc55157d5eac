//! LAYOUTRETURN: a client gives layouts back (RFC 8881, section 18.44; RFC 8435, section 9.3).

ghost use Rattle.std.specs.Prelude.{◌≢◌, IfErr};
ghost use Rattle.mds_refusals.specs.Orders.{Takes, Permits, file_of};
ghost use Rattle.mds_refusals.specs.LayoutReturns.{layout_return_order, layout_return_all_order};
ghost use Rattle.nfs4_types.specs.declared.status.Stat4.TheVariants.{Ok};

use crate::layout_get::FLEX_FILES;
use crate::{Named, Object};
use cluster_model::FileId;
use nfs4_types::Stat4;

/// A LAYOUTRETURN of one file's layout, and what it finds.
#[derive(Clone, Copy, Debug, PartialEq, Eq)]
pub struct FileReturn {
    pub layout_type: u32,
    pub reclaim: bool,
    pub offset: u64,
    pub length: u64,
    /// Its body is in the form of the layout type.
    pub has_body: bool,
    /// What its stateid names at the file.
    pub named: Named,
}

/// The file whose layout is given back, LAYOUTRETURN4_FILE. A layout is given back as a whole.
///
/// # Errors
/// NOFILEHANDLE, UNKNOWN_LAYOUTTYPE, INVAL where it is a reclaim or of a part of the file, BADXDR, BAD_STATEID where the stateid
/// does not name the client's layout of the file, in this order.
pub fn try_layout_return(current: Option<Object>, asked: FileReturn) -> Result<FileId, Stat4>
    ensures takes { Takes (layout_return_order current asked) (file_of current) result }
    ensures refuses { IfErr result (λ status. status ≢ Ok) }
{
    let Some(object) = current else {
        return Err(Stat4::NoFileHandle);
    };
    if asked.layout_type != FLEX_FILES {
        return Err(Stat4::UnknownLayoutType);
    }
    if asked.reclaim || asked.offset != 0 || asked.length != u64::MAX {
        return Err(Stat4::Inval);
    }
    if !asked.has_body {
        return Err(Stat4::BadXdr);
    }
    match (object, asked.named) {
        (Object::File(file), Named::Layout) => Ok(file),
        _ => Err(Stat4::BadStateid),
    }
}

/// All of the client's layouts are given back, LAYOUTRETURN4_FSID or LAYOUTRETURN4_ALL.
///
/// # Errors
/// UNKNOWN_LAYOUTTYPE, INVAL where it is a reclaim, in this order.
pub fn try_layout_return_all(layout_type: u32, reclaim: bool) -> Result<(), Stat4>
    ensures takes { Permits (layout_return_all_order layout_type reclaim) result }
    ensures refuses { IfErr result (λ status. status ≢ Ok) }
{
    if layout_type != FLEX_FILES {
        return Err(Stat4::UnknownLayoutType);
    }
    if reclaim {
        return Err(Stat4::Inval);
    }
    Ok(())
}
