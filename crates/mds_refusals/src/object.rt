//! What a filehandle is of.

ghost use Rattle.std.specs.Prelude.{◌≢◌, IfErr};
ghost use Rattle.mds_refusals.specs.Orders.{Takes, no_handle};
ghost use Rattle.nfs4_types.specs.declared.status.Stat4.TheVariants.{Ok};

use cluster_model::FileId;
use nfs4_types::Stat4;

/// An object of the metadata server's file system (RFC 8881, section 5.8.1.2): one directory, and files in it.
#[derive(Clone, Copy, Debug, PartialEq, Eq)]
pub enum Object {
    Root,
    File(FileId),
}

/// The current filehandle's object, as GETATTR and GETFH want one (RFC 8881, sections 18.7 and 18.8).
///
/// # Errors
/// NOFILEHANDLE where there is no current filehandle.
pub fn current_object(current: Option<Object>) -> Result<Object, Stat4>
    ensures takes { Takes (no_handle current) current result }
    ensures refuses { IfErr result (λ status. status ≢ Ok) }
{
    current.ok_or(Stat4::NoFileHandle)
}
