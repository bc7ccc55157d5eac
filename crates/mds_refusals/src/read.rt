//! READ: bytes of a file, through the metadata server (RFC 8881, section 18.22).

ghost use Rattle.std.specs.Prelude.{◌≡◌, ◌≢◌, ◌+◌, nat_lt, IfErr};
ghost use Rattle.mds_refusals.specs.Orders.{Takes, file_of};
ghost use Rattle.mds_refusals.specs.Reads.{read_order};
ghost use Rattle.mds_refusals.specs.declared.read.TheConstants as limit;
ghost use Rattle.nfs4_types.specs.declared.status.Stat4.TheVariants.{Ok};

use crate::{Named, Object};
use cluster_model::{FileId, Phase};
use nfs4_types::Stat4;

/// How many bytes the results of a reply that is to be kept have at most, up to and with those of a READ.
pub const MAX_KEPT_READ: u64 = 12_288;

/// A READ, and what it finds.
#[derive(Clone, Copy, Debug, PartialEq, Eq)]
pub struct ReadAsk {
    /// What its stateid names at the file.
    pub named: Named,
    /// How many bytes it asks for.
    pub count: u32,
    /// How many bytes the results before it have, where the reply is to be kept.
    pub kept: Option<usize>,
    /// The file's phase.
    pub phase: Phase,
}

/// So many bytes and those that are read are more than are kept.
fn is_too_big(before: u64, count: u32) -> bool
    ensures { result ≡ nat_lt limit.MAX_KEPT_READ (before + count) }
{
    before > MAX_KEPT_READ || u64::from(count) > MAX_KEPT_READ - before
}

/// The file that is read.
///
/// # Errors
/// NOFILEHANDLE, ISDIR at the root, BAD_STATEID, REP_TOO_BIG_TO_CACHE, DELAY while the file's mirrors are being made, in this
/// order.
pub fn try_read(current: Option<Object>, ask: ReadAsk) -> Result<FileId, Stat4>
    ensures takes { Takes (read_order current ask) (file_of current) result }
    ensures refuses { IfErr result (λ status. status ≢ Ok) }
{
    let file = match current {
        None => return Err(Stat4::NoFileHandle),
        Some(Object::Root) => return Err(Stat4::IsDir),
        Some(Object::File(file)) => file,
    };
    if !matches!(ask.named, Named::Open | Named::Anonymous | Named::Bypass) {
        return Err(Stat4::BadStateid);
    }
    match ask.kept {
        Some(before) if is_too_big(before as u64, ask.count) => {
            return Err(Stat4::RepTooBigToCache);
        }
        _ => {}
    }
    if ask.phase == Phase::Making {
        return Err(Stat4::Delay);
    }
    Ok(file)
}
