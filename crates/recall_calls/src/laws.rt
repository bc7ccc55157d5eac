//! The laws of recalls as records, and of their answers.

ghost use Rattle.std.specs.Prelude.{ℕ};
ghost use Rattle.ff_xdr.specs.Form.{Value};
ghost use Rattle.nfs4_compound.specs.Compounds.{cb_compound4_res};
ghost use Rattle.recall_calls.specs.RecallCallLaws.{RecallMessage, IsRecallUnderstood, AreRecallsApart, IsStatusTold};

use rpc_record::every_message;

/// The laws of the definitions by which `recall_record` spells and `recall_answer` reads. The record is read as this call
/// of the client's program, and its arguments as these two operations with nothing behind them; records that are equal
/// have one number, program and operations. A reply that says a status as a client should comes to that status.
pub fn every_recall_call()
    ensures understood { (m : RecallMessage) → IsRecallUnderstood m }
    ensures told_apart { (m n : RecallMessage) → AreRecallsApart m n }
    ensures told { (xid : ℕ) (v : Value cb_compound4_res) → IsStatusTold xid v }
{
    every_message();
}
