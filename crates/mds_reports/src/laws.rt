//! What a reply tells a slot, and its answer.

ghost use Rattle.mds_reports.specs.SlotReports.{ReportsAgree};

use mds_replies::effect_law;
use nfs4_session::table_law;

/// In every run of a metadata server to which clients of this cluster call: a reply by which a request took effect is not
/// BADSESSION; one that tells that the reply was not kept, or that the request is to wait, has the status that says so (RFC
/// 8881, sections 15.1.1.3, 15.1.11.1 and 18.46).
pub fn slot_reports()
    ensures agree { ReportsAgree }
{
    effect_law();
    table_law();
}
