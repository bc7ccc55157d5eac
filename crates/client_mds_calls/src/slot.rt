//! What a slot is told by the results of a compound (RFC 8881, section 18.46.3).

ghost use Rattle.std.specs.Prelude.{◌≡◌};
ghost use Rattle.ff_xdr.specs.Items.{contents};
ghost use Rattle.nfs4_types.specs.Status.{stat4_number};
ghost use Rattle.nfs4_compound.specs.Results.{resop4, op_res_value};
ghost use Rattle.client_compounds.specs.MdsResults.{in_arm};
ghost use Rattle.client_mds_calls.specs.MdsCalls.{takes_slot};
ghost use Rattle.client_mds_calls.specs.MdsReplies.{slot_answer_of, slot_result, slot_status, slot_told};

use crate::ask::MdsAsk;
use crate::reply::SlotReport;
use client_compounds::CompoundResults;
use nfs4_compound::OpRes;
use nfs4_types::{OpResult, Stat4};

/// What a refused SEQUENCE says of the slot (RFC 8881, section 18.46.3).
fn slot_status(status: Stat4) -> SlotReport
    ensures { result ≡ slot_status (stat4_number status) }
{
    match status.number() {
        10068 => SlotReport::Uncached,
        10008 => SlotReport::Delayed,
        _ => SlotReport::Unknown,
    }
}

/// What a result says of the slot, where it is a SEQUENCE's.
fn slot_of(first: &OpRes<'_>) -> SlotReport
    ensures { result ≡ in_arm 53 resop4 slot_result SlotReport.Unknown (op_res_value first.now) }
{
    match first {
        OpRes::Sequence(OpResult::Done(_)) => SlotReport::Taken,
        OpRes::Sequence(OpResult::Refused(status)) => slot_status(*status),
        _ => SlotReport::Unknown,
    }
}

/// What the first result says of the slot.
fn slot_answer_of(results: CompoundResults<'_>) -> SlotReport
    ensures { result ≡ slot_answer_of (contents resop4 op_res_value results.entry.place) }
{
    let mut results = results.items();
    match results.next() {
        None => SlotReport::Unknown,
        Some(first) => slot_of(&first),
    }
}

/// The call is a request on a slot.
fn takes_slot(ask: &MdsAsk) -> bool
    ensures { result ≡ takes_slot ask.now }
{
    !matches!(ask, MdsAsk::ExchangeId | MdsAsk::CreateSession)
}

/// What the slot is told: nothing by a call that takes none.
pub fn slot_told(ask: &MdsAsk, results: CompoundResults<'_>) -> SlotReport
    ensures { result ≡ slot_told ask.now (contents resop4 op_res_value results.entry.place) }
{
    if takes_slot(ask) {
        slot_answer_of(results)
    } else {
        SlotReport::Unknown
    }
}
