//! What the reply to a call comes to.

ghost use Rattle.std.specs.Prelude.{◌≡◌};
ghost use Rattle.rpc_record.specs.Replies.{rpc_reply};
ghost use Rattle.cluster_model.specs.DsCalls.{plain_ds_call, plain_ds_reply};
ghost use Rattle.ds_calls.specs.GivenReplies.{reply_of_call, results_of_call, HasFewBytes};

use crate::commit::read_commit;
use crate::create::read_create;
use crate::read::read_read;
use crate::setattr::read_setattr;
use crate::shown::odd_answer;
use crate::write::read_write;
use cluster_model::{DsCall, DsReply};
use rpc_record::{Reply, ReplyBody};

/// What the results of a call say.
fn results_of<'a>(call: &DsCall<'_>, results: &'a [u8]) -> DsReply<'a>
    ensures is { plain_ds_reply result ≡ results_of_call (plain_ds_call call.now) results.now }
    ensures few { HasFewBytes (plain_ds_reply result) }
{
    match call {
        DsCall::Create { .. } => read_create(results),
        DsCall::SetAttr { .. } => read_setattr(results),
        DsCall::Write { synced, bytes, .. } => read_write(*synced, bytes.len(), results),
        DsCall::Commit { .. } => read_commit(results),
        DsCall::Read { count, .. } => read_read(*count, results),
    }
}

/// What the reply to this call comes to (RFC 1813, section 3.3). The bytes of a READ stay in the record.
///
/// A refusal is `Failed` by its number; NOT_SYNC of a SETATTR is `NotSync`. What is shown are the
/// attributes after the operation, where they are there; a refused CREATE has none of the file.
///
/// `Failed` with 10006, SERVERFAULT, and nothing shown: a reply other than SUCCESS (RFC 5531, section 9);
/// results that are not in their form, or with bytes behind them; an OK WRITE of another count than was
/// asked for, or not FILE_SYNC where that was asked for; an OK READ whose count is not its data's, or
/// more than was asked for; an OK CREATE without attributes or without a handle of eight bytes; a NOT_SYNC
/// of a SETATTR without attributes.
pub fn ds_reply_of<'a>(call: &DsCall<'_>, reply: &Reply<'a>) -> DsReply<'a>
    ensures is { plain_ds_reply result ≡ reply_of_call (plain_ds_call call.now) (rpc_reply reply.now) }
    ensures few { HasFewBytes (plain_ds_reply result) }
{
    match reply.body {
        ReplyBody::Success(results) => results_of(call, results),
        _ => odd_answer(),
    }
}
