//! What a reply shows of a file (RFC 1813, section 2.5), and answers that show nothing.

ghost use Rattle.std.specs.Prelude.{◌≡◌};
ghost use Rattle.nfs3_wire.specs.Attributes.{fattr3_value};
ghost use Rattle.nfs3_wire.specs.Wcc.{post_op_value};
ghost use Rattle.cluster_model.specs.DsCalls.{plain_ds_reply};
ghost use Rattle.ds_calls.specs.GivenReplies.{shown_in, shown_where, odd_answer, HasFewBytes};

use cluster_model::{Cred, DsReply, Shown, Tick};
use nfs3_wire::{Fattr3, Stat3};

/// The user, the ctime as a tick, and the size in bytes.
pub fn shown_in(attributes: Fattr3) -> Shown
    ensures { result ≡ shown_in (fattr3_value attributes) }
{
    Shown {
        owner: Cred(attributes.uid),
        seen: Tick {
            boot: attributes.ctime.seconds,
            count: attributes.ctime.nanos,
        },
        size: attributes.size,
    }
}

/// The same, where there are attributes.
pub fn shown_where(attributes: Option<Fattr3>) -> Option<Shown>
    ensures { result ≡ shown_where (post_op_value attributes) }
{
    match attributes {
        None => None,
        Some(attributes) => Some(shown_in(attributes)),
    }
}

/// A reply that no server gives by the standard: SERVERFAULT (RFC 1813, section 2.6), and nothing is shown.
pub fn odd_answer<'a>() -> DsReply<'a>
    ensures is { plain_ds_reply result ≡ odd_answer }
    ensures few { HasFewBytes (plain_ds_reply result) }
{
    DsReply::Failed {
        status: Stat3::ServerFault.number(),
        shown: None,
    }
}
