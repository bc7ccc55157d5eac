//! Replies of the metadata server.

ghost use Rattle.std.specs.Prelude.{◌≡◌, OnOk};
ghost use Rattle.rpc_record.specs.Replies.{rpc_reply};
ghost use Rattle.client_mds_calls.specs.MdsReplies.{plain_mds_answer, reply_of_ask};
ghost use Rattle.client_state.specs.QueueSteps.{HasRun};
ghost use Rattle.client_answers.specs.ClientAnswers.{delayed, mds_answered};
ghost use Rattle.client_answers.specs.AnswerSteps.{with_asked_as};

use crate::answers::{next_on_slot, take_answer};
use client_mds_calls::{MdsAnswer, MdsAsk, MdsReply, SlotReport, mds_reply_of};
use client_state::State;
use cluster_model::Outbox;
use ff_xdr::NoMemory;
use rpc_record::Reply;

/// The same record goes out again at the next tick.
fn delay(client: &mut State)
    ensures { client.new ≡ with_asked_as client.old (delayed client.old.asked) }
{
    if let Some(asked) = &mut client.asked {
        asked.is_late = true;
    }
}

/// What a reply comes to by what became of the slot: the answer counts, or the same goes out anew under another
/// number, or the same record at the next tick.
fn by_slot(
    client: &mut State,
    ask: MdsAsk,
    slot: SlotReport,
    answer: &MdsAnswer<'_>,
    now: u64,
    out: &mut Outbox,
) -> Result<(), NoMemory>
    ensures { OnOk result (HasRun (mds_answered ask (record { slot = slot; answer = plain_mds_answer answer.now }) now client.old) out.old client.new out.new) }
{
    match slot {
        SlotReport::Taken => {
            next_on_slot(client, now);
            client.asked = None;
            take_answer(client, ask, answer, out)
        }
        SlotReport::Uncached => {
            next_on_slot(client, now);
            client.asked = None;
            client.again = Some(ask);
            Ok(())
        }
        SlotReport::Delayed => {
            delay(client);
            Ok(())
        }
        SlotReport::Unknown => {
            client.asked = None;
            take_answer(client, ask, answer, out)
        }
    }
}

/// The reply to the outstanding compound, which asked this, came at `now`, in seconds. By what became of the slot
/// (RFC 8881, section 2.10.6) what was asked is done or refused, or the same goes out anew under another number, or
/// the same record at the next tick. After `NoMemory` nothing is said.
pub fn mds_answered(
    client: &mut State,
    ask: MdsAsk,
    reply: &Reply<'_>,
    now: u64,
    out: &mut Outbox,
) -> Result<(), NoMemory>
    ensures { OnOk result (HasRun (mds_answered ask (reply_of_ask ask (rpc_reply reply.now)) now client.old) out.old client.new out.new) }
{
    let MdsReply { slot, answer } = mds_reply_of(&ask, reply);
    by_slot(client, ask, slot, &answer, now, out)
}
