//! LAYOUTGET: a client is given a layout of a file (RFC 8881, section 18.43; RFC 8435, section 2.2).

ghost use Rattle.std.specs.Prelude.{◌≢◌, IfErr};
ghost use Rattle.mds_refusals.specs.Orders.{Takes, file_of};
ghost use Rattle.mds_refusals.specs.LayoutGets.{layout_get_order};
ghost use Rattle.nfs4_types.specs.declared.status.Stat4.TheVariants.{Ok};

use crate::{Named, Object};
use cluster_model::FileId;
use layout_state::GrantFault;
use nfs4_file_ops::LayoutGetArgs;
use nfs4_types::Stat4;

/// LAYOUT4_FLEX_FILES (RFC 8435, section 4).
pub const FLEX_FILES: u32 = 4;

/// LAYOUTIOMODE4_READ (RFC 8881, section 3.3.20).
pub const IOMODE_READ: u32 = 1;

/// LAYOUTIOMODE4_RW (RFC 8881, section 3.3.20).
pub const IOMODE_RW: u32 = 2;

/// What a LAYOUTGET finds.
#[derive(Clone, Copy, Debug, PartialEq, Eq)]
pub struct LayoutGetFound {
    /// What its stateid names at the file.
    pub named: Named,
    /// Why the file is not granted to this client, if it is not.
    pub fault: Option<GrantFault>,
    /// How many bytes the layout has.
    pub size: u32,
}

/// The file that is granted.
///
/// # Errors
/// NOFILEHANDLE, WRONG_TYPE at the root, UNKNOWN_LAYOUTTYPE, BADIOMODE, LAYOUTUNAVAILABLE for reading alone, INVAL where the
/// least length is above the length, BAD_STATEID, LAYOUTTRYLATER, RECALLCONFLICT, LAYOUTUNAVAILABLE where uids are spent, TOOSMALL,
/// in this order.
pub fn try_layout_get(
    current: Option<Object>,
    args: LayoutGetArgs,
    found: LayoutGetFound,
) -> Result<FileId, Stat4>
    ensures takes { Takes (layout_get_order current args found) (file_of current) result }
    ensures refuses { IfErr result (λ status. status ≢ Ok) }
{
    let file = match current {
        None => return Err(Stat4::NoFileHandle),
        Some(Object::Root) => return Err(Stat4::WrongType),
        Some(Object::File(file)) => file,
    };
    if args.layout_type != FLEX_FILES {
        return Err(Stat4::UnknownLayoutType);
    }
    if args.iomode != IOMODE_READ && args.iomode != IOMODE_RW {
        return Err(Stat4::BadIoMode);
    }
    if args.iomode == IOMODE_READ {
        return Err(Stat4::LayoutUnavailable);
    }
    if args.minlength > args.length {
        return Err(Stat4::Inval);
    }
    if !matches!(found.named, Named::Open | Named::Layout) {
        return Err(Stat4::BadStateid);
    }
    match found.fault {
        Some(GrantFault::Later(_)) => return Err(Stat4::LayoutTryLater),
        Some(GrantFault::Recalling) => return Err(Stat4::RecallConflict),
        Some(GrantFault::Spent) => return Err(Stat4::LayoutUnavailable),
        None => {}
    }
    if args.maxcount < found.size {
        return Err(Stat4::TooSmall);
    }
    Ok(file)
}
