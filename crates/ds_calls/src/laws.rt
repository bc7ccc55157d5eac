//! The laws of calls to data servers and their replies.

ghost use Rattle.std.specs.Prelude.{ℕ};
ghost use Rattle.cluster_model.specs.DsCalls.{DsCallValue, DsReplyValue};
ghost use Rattle.ds_calls.specs.DsCallLaws.{DsMessage, IsUnderstood, AreToldApart, AttributesBeside, IsAnswered, IsAnsweredByRule};
ghost use Rattle.cluster_model.specs.Server.{ServerState, Caller};

use nfs3_wire::every_call;
use rpc_record::every_message;

/// The laws of the definitions by which `put_ds_call` writes and `ds_reply_of` reads. The record of a call
/// is read as this call, by this user; different calls, users, machines and numbers have different
/// records. A reply that says an answer to the call comes to that answer, whatever else it says; and what
/// the rule of a data server replies is such an answer.
pub fn every_ds_call()
    ensures understood { (m : DsMessage) → IsUnderstood m }
    ensures told_apart { (m n : DsMessage) → AreToldApart m n }
    ensures answered { (xid : ℕ) (b : AttributesBeside) (call : DsCallValue) (reply : DsReplyValue) → IsAnswered xid b call reply }
    ensures ruled { (s : ServerState) (caller : Caller) (call : DsCallValue) → IsAnsweredByRule s caller call }
{
    every_call();
    every_message();
}
