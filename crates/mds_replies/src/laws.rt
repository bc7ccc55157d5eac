//! What the replies of a metadata server stand on, in every run to which clients of this cluster call.

ghost use Rattle.mds_replies.specs.LayoutReplies.{PeriodsGoOn, PeriodsEnd, PeriodsAreOwn};
ghost use Rattle.mds_replies.specs.SlotReplies.{EffectsAreNumbered};
ghost use Rattle.mds_replies.specs.ClientIds.{IdsAreOwn, SessionsAreOwn};
ghost use Rattle.mds_replies.specs.AnsweredRequests.{EachReplyStands};
ghost use Rattle.mds_replies.specs.ReturnedPeriods.{ReturnsCome};
ghost use Rattle.mds_replies.specs.GivenAnswers.{EachReplyIsWhole, EachAnswerIsNow, EachReplyIsAsked};
ghost use Rattle.mds_replies.specs.SlotOrder.{SlotsStayFree, OrderIsByCount, CountsTookEffect, FirstIsFree, TakenAreCounted};
ghost use Rattle.mds_replies.specs.PeriodEntries.{UidsEndOnce, PeriodsAreConfirmed, PeriodsBegin};

use mds_laws::slot_law;
use nfs4_session::table_law;

/// A period goes on until its end is entered (RFC 8881, section 12.5.5), does not come back behind it, and is of one file
/// and of one client (RFC 8435, section 2.2).
pub fn period_law()
    ensures goes_on { PeriodsGoOn }
    ensures over { PeriodsEnd }
    ensures own { PeriodsAreOwn }
{}

/// Each request of a client's slot that takes effect has the number behind those before it (RFC 8881, section 2.10.6.1).
pub fn effect_law()
    ensures numbered { EffectsAreNumbered }
{
    slot_law();
}

/// An id of a client is given to one owner and verifier (RFC 8881, section 18.35), and a session to the client that asked for
/// it (section 18.36).
pub fn id_law()
    ensures ids { IdsAreOwn }
    ensures sessions { SessionsAreOwn }
{}

/// Each reply answers a call that came, and what it tells a slot of a request stands on the request that took effect (RFC 8881,
/// section 2.10.6); a LAYOUTGET and a LAYOUTRETURN mean what they say (sections 18.43 and 18.44).
pub fn replies_law()
    ensures stands { EachReplyStands }
{
    slot_law();
    table_law();
}

/// What the count of a session's requests that took effect says of their numbers (RFC 8881, section 2.10.6.1): a slot that is
/// free of a request that took effect stays so; a number that is refused with SEQ_MISORDERED is not the last one, nor the next
/// one where the slot is free of the last; each number up to the count, and no other, is that of a request that took effect;
/// and a slot on which none did has none in progress.
pub fn order_law()
    ensures stays { SlotsStayFree }
    ensures misordered { OrderIsByCount }
    ensures taken { CountsTookEffect }
    ensures first { FirstIsFree }
    ensures counted { TakenAreCounted }
{
    slot_law();
    table_law();
}

/// A period ends as returned only by a LAYOUTRETURN of its client that takes effect and names it (RFC 8881, section 18.44),
/// and each mirror that is left is one that it did not report (RFC 8435, section 9).
pub fn returns_law()
    ensures come { ReturnsCome }
{
    slot_law();
}

/// The reply to a compound is of success and bears its results, and what is answered at once came in the same event (RFC 5531,
/// section 9). Where clients of this cluster call, each reply answers a call that came from its node under its number: in the
/// same event, or before where it is a request on a slot (RFC 8881, section 2.10.6).
pub fn answers_law()
    ensures whole { EachReplyIsWhole }
    ensures now { EachAnswerIsNow }
    ensures asked { EachReplyIsAsked }
{}

/// What the entries of a run say of periods: a uid is entered once as that of a period that ended (RFC 8881, section 12.5.5;
/// RFC 8435, section 2.2). The node to which a client's period was granted is one from which a CREATE_SESSION was called with
/// the client's id (RFC 8881, section 18.36), and the period was entered as granted where the file's live mirrors were those that
/// it has now; a file has at most four mirrors.
pub fn entries_law()
    ensures ends_once { UidsEndOnce }
    ensures confirmed { PeriodsAreConfirmed }
    ensures begin { PeriodsBegin }
{}
