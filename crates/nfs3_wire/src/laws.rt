//! The laws of calls and of results.

ghost use Rattle.ff_xdr.specs.Form.{Value};
ghost use Rattle.ff_xdr.specs.Exact.{IsExactByNumber};
ghost use Rattle.nfs3_wire.specs.Calls.{Nfs3Call, calls};
ghost use Rattle.nfs3_wire.specs.Replies.{Nfs3Reply, nfs3_results};
ghost use Rattle.nfs3_wire.specs.Laws.{IsCallOfItsValue, IsCallsValue, IsReplyOfItsValue, IsReplysValue};

use ff_xdr::every_arm;

/// The laws of the arguments of calls: all that an exact form has, by the procedure's number; and each
/// call is known by its value, and each value is a call's. `read_call` and `write_call` answer by the
/// same definitions.
pub fn every_call()
    ensures exact { IsExactByNumber calls }
    ensures known { (c : Nfs3Call) → IsCallOfItsValue c }
    ensures a_call { (v : Value calls) → IsCallsValue v }
{
    every_arm();
}

/// The same laws of results.
pub fn every_reply()
    ensures exact { IsExactByNumber nfs3_results }
    ensures known { (r s : Nfs3Reply) → IsReplyOfItsValue r s }
    ensures a_reply { (v : Value nfs3_results) → IsReplysValue v }
{
    every_arm();
}
