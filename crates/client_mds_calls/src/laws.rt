//! The laws of calls to a metadata server.

ghost use Rattle.client_mds_calls.specs.MdsCallLaws.{AreCompoundsApart, IsCompoundUnderstood, MdsMessage};

use rpc_record::every_message;

/// The laws of the definitions by which `put_mds_call` writes. The record of a call is read as this call:
/// its header, and its arguments as a compound of exactly its operations. Calls of different operations,
/// or under different numbers, have different records.
pub fn every_mds_call()
    ensures understood { (m : MdsMessage) → IsCompoundUnderstood m }
    ensures told_apart { (m n : MdsMessage) → AreCompoundsApart m n }
{
    every_message();
}
