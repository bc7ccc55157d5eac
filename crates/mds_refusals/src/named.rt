//! What a stateid names.

ghost use Rattle.std.specs.Prelude.{◌≡◌};
ghost use Rattle.mds_refusals.specs.Stateids.{named_by};

use cluster_model::{Cred, FileId};
use nfs4_types::{Stateid, layout_stateid, open_stateid};

/// What a stateid names for a client at a file. Its seqid is passed over (RFC 8881, section 8.2).
#[derive(Clone, Copy, Debug, PartialEq, Eq)]
pub enum Named {
    /// The client's open of the file.
    Open,
    /// The client's layout of the file.
    Layout,
    /// No state: the anonymous stateid (section 8.2.3).
    Anonymous,
    /// No state, for a READ: the READ bypass stateid (section 8.2.3).
    Bypass,
    Nothing,
}

/// What this stateid names at this file, for a client whose open of it has this number, and whose layout of it is under this
/// uid.
pub fn state_named(
    stateid: Stateid,
    file: FileId,
    number: Option<u32>,
    granted: Option<Cred>,
) -> Named
    ensures { result ≡ named_by stateid file number granted }
{
    if stateid.other == [0; 12] {
        return Named::Anonymous;
    }
    if stateid.other == [0xff; 12] {
        return Named::Bypass;
    }
    match number {
        Some(n) if open_stateid(file.0, n).other == stateid.other => return Named::Open,
        _ => {}
    }
    match granted {
        Some(cred) if layout_stateid(file.0, cred.0, 0).other == stateid.other => Named::Layout,
        _ => Named::Nothing,
    }
}
