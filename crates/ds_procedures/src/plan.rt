//! What a call comes to: its answer, and what is to be done.

ghost use Rattle.std.specs.Prelude.{◌≡◌, []};
ghost use Rattle.ff_xdr.specs.Form.{Fits};
ghost use Rattle.nfs3_wire.specs.Replies.{nfs3_results, reply_value};
ghost use Rattle.cluster_model.specs.Server.{NoEffect};
ghost use Rattle.ds_procedures.specs.Answer.{reply_with};
ghost use Rattle.ds_procedures.specs.Plans.{reply_alone};
ghost use Rattle.ds_procedures.specs.CodePlans.{plain_effect, plain_plan};

use crate::answer::Response;
use crate::stored::StoredReply;
use cluster_model::Changes;

/// What is to be done: nothing, one thing to the file at an index, or a new file.
#[derive(Clone, Copy)]
pub enum Effect<'c> {
    Nothing,
    /// A WRITE of these bytes from the byte `at` on.
    Writes {
        index: usize,
        at: u64,
        synced: bool,
        bytes: &'c [u8],
    },
    Commits {
        index: usize,
    },
    Sets {
        index: usize,
        changes: Changes,
    },
    Makes {
        name: &'c [u8],
        owner: u32,
        group: u32,
        mode: u32,
    },
}

/// What a call comes to.
#[derive(Drop)]
pub struct Plan<'s, 'c> {
    pub response: Response<'s>,
    pub effect: Effect<'c>,
}

/// The plan of an answer alone.
pub fn reply_alone<'s, 'c>(reply: StoredReply) -> Plan<'s, 'c>
    requires { Fits nfs3_results (reply_value (reply_with reply [])) }
    ensures plan { plain_plan result ≡ reply_alone (reply_with reply []) }
    ensures nothing { plain_effect result.effect ≡ NoEffect }
{
    Plan {
        response: Response::new(reply),
        effect: Effect::Nothing,
    }
}
