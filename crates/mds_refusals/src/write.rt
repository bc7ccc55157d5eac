//! WRITE: bytes into a file, through the metadata server (RFC 8881, section 18.32).

ghost use Rattle.std.specs.Prelude.{◌≢◌, IfErr, ◌≤◌, ◌+◌, OnOk};
ghost use Rattle.mds_refusals.specs.Orders.{Takes, file_of};
ghost use Rattle.mds_refusals.specs.Writes.{write_order};
ghost use Rattle.nfs4_types.specs.declared.status.Stat4.TheVariants.{Ok};
ghost use Rattle.cluster_model.specs.declared.limits.TheConstants.{MAX_FILE, PIECE_SIZE};

use crate::{Named, Object};
use cluster_model::{FileId, MAX_FILE, PIECE_SIZE, Phase, SPARE_UIDS};
use nfs4_types::Stat4;

/// A WRITE, and what it finds.
#[derive(Clone, Copy, Debug, PartialEq, Eq)]
pub struct WriteAsk {
    /// What its stateid names at the file.
    pub named: Named,
    /// At which byte of the file it begins.
    pub offset: u64,
    /// How many bytes it has.
    pub length: usize,
    /// The file's phase.
    pub phase: Phase,
    /// How many uids can still be drawn.
    pub uids_left: u32,
}

/// The file that is written. Where the WRITE has no bytes it is done; else it begins a period of the metadata server's own.
///
/// # Errors
/// NOFILEHANDLE, ISDIR at the root, BAD_STATEID, INVAL where it has more than 65,536 bytes, and of a WRITE of at least one byte
/// FBIG where it ends past 67,108,864, DELAY where the file is not free, SERVERFAULT where uids are spent, in this order.
pub fn try_write(current: Option<Object>, ask: WriteAsk) -> Result<FileId, Stat4>
    ensures takes { Takes (write_order current ask) (file_of current) result }
    ensures refuses { IfErr result (λ status. status ≢ Ok) }
    ensures few { OnOk result (ask.length ≤ PIECE_SIZE) }
    ensures within { OnOk result (1 ≤ ask.length → ask.offset + ask.length ≤ MAX_FILE) }
{
    let file = match current {
        None => return Err(Stat4::NoFileHandle),
        Some(Object::Root) => return Err(Stat4::IsDir),
        Some(Object::File(file)) => file,
    };
    if !matches!(ask.named, Named::Open | Named::Anonymous) {
        return Err(Stat4::BadStateid);
    }
    if ask.length > PIECE_SIZE as usize {
        return Err(Stat4::Inval);
    }
    if ask.length == 0 {
        return Ok(file);
    }
    if ask.offset > MAX_FILE - ask.length as u64 {
        return Err(Stat4::Fbig);
    }
    if ask.phase != Phase::Free {
        return Err(Stat4::Delay);
    }
    if ask.uids_left < SPARE_UIDS {
        return Err(Stat4::ServerFault);
    }
    Ok(file)
}
