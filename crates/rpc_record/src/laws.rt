ghost use Rattle.std.specs.Prelude.{ℕ, List};
ghost use Rattle.ff_xdr.specs.declared.error.XdrError.{XdrError};
ghost use Rattle.rpc_record.specs.Calls.{RpcCall};
ghost use Rattle.rpc_record.specs.Replies.{RpcReply};
ghost use Rattle.rpc_record.specs.Laws.{IsCallReadAgain, IsCallSpelledSo, IsNoCallJustWhere, IsOfAnotherVersionJustWhere, IsReplyReadAgain, IsReplySpelledSo};
ghost use Rattle.rpc_record.specs.Laws.{IsBadJustWhere, IsCallShortAtEnd, IsCallRefusedThere, IsCallFirstFault, IsReplyShortAtEnd, IsReplyRefusedThere, IsReplyFirstFault};

use ff_xdr::every_form;

/// The laws of calls and of replies, of every record: what was written is read back, what is read is
/// spelled so, and which records are no calls. `Call` and `Reply` read and write by the same
/// definitions.
///
/// A call is refused just where its header is not in its form. A short refusal of a call or of a reply
/// is at the record's end; any other stands whatever follows the refused item, and some call or reply
/// has all bytes in front of it.
pub fn every_message()
    ensures call_again { (c : RpcCall) → IsCallReadAgain c }
    ensures call_spelled { (bytes : List ℕ) (c : RpcCall) → IsCallSpelledSo bytes c }
    ensures no_call { (bytes : List ℕ) → IsNoCallJustWhere bytes }
    ensures another_version { (bytes : List ℕ) (xid : ℕ) → IsOfAnotherVersionJustWhere bytes xid }
    ensures bad_call { (bytes : List ℕ) (xid : ℕ) (e : XdrError) → IsBadJustWhere bytes xid e }
    ensures call_short { (bytes : List ℕ) (xid : ℕ) (e : XdrError) → IsCallShortAtEnd bytes xid e }
    ensures call_stops { (bytes : List ℕ) (xid : ℕ) (e : XdrError) → IsCallRefusedThere bytes xid e }
    ensures call_least { (bytes : List ℕ) (xid : ℕ) (e : XdrError) → IsCallFirstFault bytes xid e }
    ensures reply_again { (r : RpcReply) → IsReplyReadAgain r }
    ensures reply_spelled { (bytes : List ℕ) (r : RpcReply) → IsReplySpelledSo bytes r }
    ensures reply_short { IsReplyShortAtEnd }
    ensures reply_stops { IsReplyRefusedThere }
    ensures reply_least { (bytes : List ℕ) (e : XdrError) → IsReplyFirstFault bytes e }
{
    every_form();
}
