//! OPEN: a file is opened by its name, and may be made (RFC 8881, section 18.16).

ghost use Rattle.std.specs.Prelude.{◌≢◌, IfErr};
ghost use Rattle.mds_refusals.specs.Opens.{OpensOrMakes};
ghost use Rattle.nfs4_types.specs.declared.status.Stat4.TheVariants.{Ok};

use crate::Object;
use crate::lookup::{MAX_NAME, is_no_name};
use cluster_model::FileId;
use nfs4_types::Stat4;

/// Whether an OPEN makes its file.
#[derive(Clone, Copy, Debug, PartialEq, Eq)]
pub enum Creation {
    /// OPEN4_NOCREATE.
    NoCreate,
    /// UNCHECKED4: where there is none of this name.
    Unchecked,
    /// GUARDED4: there has to be none of this name.
    Guarded,
}

/// What an OPEN finds.
#[derive(Clone, Copy, Debug, PartialEq, Eq)]
pub struct OpenFound {
    /// The file that has the name.
    pub file: Option<FileId>,
    /// The client has it open, or can have one file more open.
    pub can_open: bool,
    /// One file more can be made.
    pub can_make: bool,
}

/// What an OPEN comes to.
#[derive(Clone, Copy, Debug, PartialEq, Eq)]
pub enum OpenStep {
    Opens(FileId),
    /// A file of this name is made first.
    Makes,
}

/// What an OPEN of this name comes to.
///
/// # Errors
/// NOFILEHANDLE, NOTDIR at a file, INVAL where the name is empty or no UTF-8 or no access is asked for, NAMETOOLONG, NOENT
/// where there is no such file and none is to be made, EXIST where there is one and GUARDED, SERVERFAULT where there is no
/// room for an open or for a file, in this order.
pub fn try_open(
    current: Option<Object>,
    name: &[u8],
    share_access: u32,
    creation: Creation,
    found: OpenFound,
) -> Result<OpenStep, Stat4>
    ensures takes { OpensOrMakes current name.now share_access creation found result }
    ensures refuses { IfErr result (λ status. status ≢ Ok) }
{
    match current {
        None => return Err(Stat4::NoFileHandle),
        Some(Object::File(_)) => return Err(Stat4::NotDir),
        Some(Object::Root) => {}
    }
    if is_no_name(name) || share_access % 4 == 0 {
        return Err(Stat4::Inval);
    }
    if name.len() > MAX_NAME {
        return Err(Stat4::NameTooLong);
    }
    match (found.file, creation) {
        (None, Creation::NoCreate) => Err(Stat4::NoEnt),
        (Some(_), Creation::Guarded) => Err(Stat4::Exist),
        (Some(file), _) if found.can_open => Ok(OpenStep::Opens(file)),
        (None, _) if found.can_open && found.can_make => Ok(OpenStep::Makes),
        _ => Err(Stat4::ServerFault),
    }
}
