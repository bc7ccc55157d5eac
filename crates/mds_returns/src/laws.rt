//! What is told of a period at the place where it ends as returned.

ghost use Rattle.mds_returns.specs.ReturnedEnds.{ReturnsComeAtEnds};

use mds_replies::{effect_law, returns_law};

/// A period is entered as ended by a return only in the event of a LAYOUTRETURN of its client, whose stateid names the file and
/// the uid (RFC 8881, section 18.44); and each mirror that the journal has as live at that place was one of the period's, and
/// is not reported (RFC 8435, section 9).
pub fn returned_ends()
    ensures ends { ReturnsComeAtEnds }
{
    effect_law();
    returns_law();
}
