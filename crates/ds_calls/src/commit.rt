//! COMMIT of a mirror (RFC 1813, section 3.3.21).

ghost use Rattle.std.specs.Prelude.{◌≡◌};
ghost use Rattle.ff_xdr.specs.Form.{arm_spelling};
ghost use Rattle.ff_xdr.specs.Calls.{Puts};
ghost use Rattle.nfs3_wire.specs.Calls.{calls, call_value};
ghost use Rattle.nfs3_wire.specs.Commit.{commit_result};
ghost use Rattle.cluster_model.specs.DsCalls.{Commit, plain_ds_reply};
ghost use Rattle.ds_calls.specs.MadeCalls.{nfs_call_of};
ghost use Rattle.ds_calls.specs.GivenReplies.{commit_answer, in_form, HasFewBytes};

use crate::handle::handle_of;
use crate::shown::{odd_answer, shown_where};
use cluster_model::DsReply;
use ff_xdr::{NoMemory, Out, Wire};
use nfs3_wire::{Call3, CommitArgs, CommitReply, Outcome, write_call};

/// Appends the arguments, or nothing.
pub fn put_commit(fileid: u64, out: &mut Out) -> Result<(), NoMemory>
    ensures { Puts out.old result out.new (arm_spelling calls (call_value (nfs_call_of (Commit fileid)))) }
{
    let file = handle_of(fileid);
    let args = CommitArgs {
        file: &file,
        offset: 0,
        count: 0,
    };
    write_call(&Call3::Commit(args), out)
}

/// What the results say.
pub fn read_commit<'a>(results: &[u8]) -> DsReply<'a>
    ensures is { plain_ds_reply result ≡ in_form commit_result commit_answer results.now }
    ensures few { HasFewBytes (plain_ds_reply result) }
{
    match CommitReply::from_bytes(results) {
        Ok(Outcome::Done(done)) => DsReply::Committed {
            shown: shown_where(done.wcc.after),
            verifier: done.verifier,
        },
        Ok(Outcome::Refused(status, wcc)) => DsReply::Failed {
            status: status.number(),
            shown: shown_where(wcc.after),
        },
        Err(_) => odd_answer(),
    }
}
