//! What the answer to a recall says.

ghost use Rattle.std.specs.Prelude.{◌≡◌};
ghost use Rattle.ff_xdr.specs.Items.{contents};
ghost use Rattle.ff_xdr.specs.Reading.{reading, whole};
ghost use Rattle.rpc_record.specs.Replies.{reply_stat, reply_results};
ghost use Rattle.nfs4_types.specs.Status.{stat4_number};
ghost use Rattle.nfs4_compound.specs.Compounds.{cb_compound4_res};
ghost use Rattle.nfs4_compound.specs.CbResults.{cb_resop4, cb_res_value};
ghost use Rattle.recall_calls.specs.RecallAnswers.{bears_out, is_begun, recall_came_to, settles, compound_status, read_status, recall_status};

use client_compounds::{Few, few_of};
use ff_xdr::{Array, Items, Wire};
use nfs4_compound::{CbRes, Tag4};
use nfs4_types::{OpResult, Stat4};
use rpc_record::ReplyBody;

/// The result of a callback compound, `CB_COMPOUND4res`.
type CbCompoundRes<'a> = (Stat4, Tag4<'a>, Array<'a, CbRes, { u32::MAX }>);

/// A CB_SEQUENCE that is OK.
fn is_begun(of: &CbRes) -> bool
    ensures { result ≡ is_begun (cb_res_value of.now) }
{
    matches!(of, CbRes::Sequence(OpResult::Done(_)))
}

/// A CB_LAYOUTRECALL that came to this status.
fn recall_came_to(status: Stat4, of: &CbRes) -> bool
    ensures { result ≡ recall_came_to (stat4_number status) (cb_res_value of.now) }
{
    match of {
        CbRes::LayoutRecall(OpResult::Done(_)) => status.number() == 0,
        CbRes::LayoutRecall(OpResult::Refused(refusal)) => status.number() == refusal.number(),
        _ => false,
    }
}

/// The results are those of the two operations, and say this status.
fn bears_out(status: Stat4, results: Items<'_, CbRes>) -> bool
    ensures { result ≡ bears_out (stat4_number status) (contents cb_resop4 cb_res_value results.entry.place) }
{
    match few_of(results) {
        Few::Two(sequence, recall) => is_begun(&sequence) && recall_came_to(status, &recall),
        _ => false,
    }
}

/// By this status the recall is agreed to, or there is no such layout.
fn settles(status: Stat4) -> bool
    ensures { result ≡ settles (stat4_number status) }
{
    matches!(status.number(), 0 | 10060)
}

/// What a compound of this status says.
fn compound_status(status: Stat4, results: Items<'_, CbRes>) -> Stat4
    ensures { stat4_number result ≡ compound_status (stat4_number status) (contents cb_resop4 cb_res_value results.entry.place) }
{
    if settles(status) && !bears_out(status, results) {
        return Stat4::ServerFault;
    }
    status
}

/// What the bytes of a compound's result say.
fn read_status(results: &[u8]) -> Stat4
    ensures { stat4_number result ≡ read_status (whole results.now (reading cb_compound4_res results.now 0)) }
{
    match CbCompoundRes::from_bytes(results) {
        Ok((status, _, results)) => compound_status(status, results.items),
        Err(_) => Stat4::ServerFault,
    }
}

/// The status that the reply to a recall says (RFC 8881, section 20.3). OK and NOMATCHING_LAYOUT are the compound's where
/// its results are CB_SEQUENCE, which is OK, and CB_LAYOUTRECALL of the same status, and no others. Any other status is the
/// compound's alone. SERVERFAULT: a reply other than SUCCESS (RFC 5531, section 9), results that are not in their form or
/// have bytes behind them, an OK or a NOMATCHING_LAYOUT without those two results. Takes no memory.
pub fn recall_answer(reply: &ReplyBody<'_>) -> Stat4
    ensures { stat4_number result ≡ recall_status (reply_stat reply.now) (reply_results reply.now) }
{
    match reply {
        ReplyBody::Success(results) => read_status(results),
        _ => Stat4::ServerFault,
    }
}
