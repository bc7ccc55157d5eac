//! LOOKUP: the object of a name becomes the current one (RFC 8881, section 18.13).

ghost use Rattle.std.specs.Prelude.{◌≡◌, ◌≢◌, IfErr};
ghost use Rattle.mds_refusals.specs.Orders.{Takes};
ghost use Rattle.mds_refusals.specs.Lookup.{lookup_order, is_no_name};
ghost use Rattle.nfs4_types.specs.declared.status.Stat4.TheVariants.{Ok};

use crate::Object;
use cluster_model::FileId;
use nfs4_types::Stat4;

/// How many bytes a name has at most.
pub const MAX_NAME: usize = 255;

/// It is empty, or no UTF-8.
pub(crate) fn is_no_name(name: &[u8]) -> bool
    ensures { result ≡ is_no_name name.now }
{
    match str::from_utf8(name) {
        Ok(text) => text.is_empty(),
        Err(_) => true,
    }
}

/// The file of this name, where `found` is the one that has it.
///
/// # Errors
/// NOFILEHANDLE, NOTDIR at a file, INVAL where the name is empty or no UTF-8, NAMETOOLONG, NOENT where no file has it, in this
/// order.
pub fn try_lookup(
    current: Option<Object>,
    name: &[u8],
    found: Option<FileId>,
) -> Result<FileId, Stat4>
    ensures takes { Takes (lookup_order current name.now found) found result }
    ensures refuses { IfErr result (λ status. status ≢ Ok) }
{
    match current {
        None => return Err(Stat4::NoFileHandle),
        Some(Object::File(_)) => return Err(Stat4::NotDir),
        Some(Object::Root) => {}
    }
    if is_no_name(name) {
        return Err(Stat4::Inval);
    }
    if name.len() > MAX_NAME {
        return Err(Stat4::NameTooLong);
    }
    found.ok_or(Stat4::NoEnt)
}
