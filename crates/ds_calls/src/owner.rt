//! The attributes that a call sets (RFC 1813, section 2.5).

ghost use Rattle.std.specs.Prelude.{◌≡◌};
ghost use Rattle.ds_calls.specs.MadeCalls.{owner_set};

use cluster_model::Cred;
use nfs3_wire::{Sattr3, SetTime};

/// The user and the group are set to the owner, the mode where it is named, and nothing else.
pub fn owner_set(mode: Option<u32>, owner: Cred) -> Sattr3
    ensures { result ≡ owner_set mode owner.0 }
{
    Sattr3 {
        mode,
        uid: Some(owner.0),
        gid: Some(owner.0),
        size: None,
        atime: SetTime::Keep,
        mtime: SetTime::Keep,
    }
}
