//! A call does the same as a record and as a call.

ghost use Rattle.cluster_model.specs.Server.{ServerState};
ghost use Rattle.ds_calls.specs.DsCallLaws.{DsMessage};
ghost use Rattle.same_server.specs.SameServer.{IsSameServer};

use ds_calls::every_ds_call;

/// Handing a data server the record of one of the five calls of a cluster does what the call does without any record: the
/// server afterwards and the entries are the same, and the reply's record is read as the call's answer (RFC 1813, section
/// 3.3; RFC 5531, section 9). So what is proved of calls alone holds of records.
pub fn same_server()
    ensures { (s : ServerState) (m : DsMessage) → IsSameServer s m }
{
    every_ds_call();
}
