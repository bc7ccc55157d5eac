//! The laws of records that come to the metadata server.

ghost use Rattle.std.specs.Prelude.{ℕ, List};
ghost use Rattle.rpc_record.specs.Calls.{RpcCall};
ghost use Rattle.rpc_record.specs.Rpc.{OpaqueAuth};
ghost use Rattle.ff_xdr.specs.Form.{Value};
ghost use Rattle.nfs4_compound.specs.Args.{argop4};
ghost use Rattle.mds_receive.specs.MdsReceiveLaws.{IsAnsweredByNumber, IsBlindToCaller, IsTakenWhole};

use nfs4_compound::every_listing;
use rpc_record::every_message;

/// The laws of the definition by which `receive_record` judges. What goes back at once is a reply without a verifier
/// under the number of the record, which is a call. Who calls makes no difference. A COMPOUND of at most 16 operations in
/// their form is taken as exactly these.
pub fn receive_law()
    ensures numbered { (bytes reply : List ℕ) → IsAnsweredByNumber bytes reply }
    ensures blind { (call : RpcCall) (cred : OpaqueAuth) → IsBlindToCaller call cred }
    ensures taken { (call : RpcCall) (tag : List ℕ) (ops : List (Value argop4)) → IsTakenWhole call tag ops }
{
    every_message();
    every_listing();
}
