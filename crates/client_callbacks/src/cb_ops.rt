//! The operations of a callback compound.

ghost use Rattle.std.specs.Prelude.{◌≡◌, ◌≤◌, ◌<◌, ◌^◌, [], ◌∷◌, ◌++◌, length, IsTrue, nat_eq, IfOk, OnOk};
ghost use Rattle.std.specs.List.{list_any};
ghost use Rattle.ff_xdr.specs.Form.{Fits, spelling};
ghost use Rattle.ff_xdr.specs.Calls.{Puts};
ghost use Rattle.nfs4_types.specs.Status.{stat4_number, refusals4};
ghost use Rattle.nfs4_session.specs.CallbackSlot.{cb_begin};
ghost use Rattle.nfs4_session_ops.specs.CbSequence.{cb_sequence4_args_value};
ghost use Rattle.nfs4_compound.specs.declared.stop.Stop.TheVariants as stop;
ghost use Rattle.nfs4_compound.specs.CbResults.{cb_resop4, cb_res_value};
ghost use Rattle.nfs4_compound.specs.Compounds.{cb_compound4_res};
ghost use Rattle.client_callbacks.specs.Callbacks.{cb_refusal, cb_recall_result, cb_sequence_result, refused_result, stopped, cb_behind, cb_repeated, recall_status, kept_of_recall, with_cb_slot, cb_begun, cb_in_session, cb_first};
ghost use Rattle.client_callbacks.specs.CallbackSteps.{HasGivenResults, HasJudgedCb};

use crate::recall::recall;
use client_state::{OwnSession, State, Tie};
use ff_xdr::{NoMemory, Out};
use nfs4_compound::{CbOp, CbOps, CbRes, NextOp, put_cb_results};
use nfs4_session::{CbBegin, CbSlot};
use nfs4_session_ops::{CbSequenceArgs, CbSequenceOk};
use nfs4_types::{OpResult, SessionId, Stat4};
use std::alloc::Global;
use std::marker::Model;

/// CB_LAYOUTRECALL (RFC 8881, section 20.3).
pub const LAYOUTRECALL: u32 = 5;

/// CB_SEQUENCE (RFC 8881, section 20.9).
pub const SEQUENCE: u32 = 11;

/// OP_CB_ILLEGAL (RFC 8881, section 20.13).
pub const ILLEGAL: u32 = 10044;

/// The results of a callback compound, so far.
#[derive(Drop)]
pub struct CbResults {
    results: Vec<CbRes>,
}

impl Model for CbResults {
    ghost use Rattle.std.specs.Prelude.{map};
    ghost use Rattle.std.specs.List.{AllByRecursion};
    ghost use Rattle.ff_xdr.specs.Form.{Fits};
    ghost use Rattle.nfs4_compound.specs.CbResults.{cb_resop4, cb_res_value};
    ghost use Rattle.client_callbacks.specs.CallbackSteps.{CbResultList};

    ghost Value = { CbResultList };

    ghost view = { λ r. map cb_res_value r.results.items };

    ghost invariant = { λ r. AllByRecursion (Fits cb_resop4) (map cb_res_value r.results.items) };
}

impl CbResults {
    /// None so far.
    pub fn new(alloc: Global) -> CbResults
        ensures { result ≡ [] }
    {
        CbResults {
            results: Vec::new(alloc),
        }
    }

    /// The result of the next operation.
    fn push(&mut self, res: CbRes) -> Result<(), NoMemory>
        requires { Fits cb_resop4 (cb_res_value res) }
        ensures { OnOk result (self.new ≡ self.old ++ cb_res_value res ∷ []) }
    {
        self.results.push(res)?;
        Ok(())
    }

    /// The operation with this number was not done, and the compound ends with its status.
    pub fn refuse(&mut self, number: u32, status: Stat4) -> Result<Stat4, NoMemory>
        requires { IsTrue (list_any (nat_eq (stat4_number status)) refusals4) }
        ensures { IfOk result (λ end. HasGivenResults (refused_result status (cb_refusal number status)) self.old self.new end) }
    {
        match number {
            LAYOUTRECALL => self.push(CbRes::LayoutRecall(OpResult::Refused(status)))?,
            SEQUENCE => self.push(CbRes::Sequence(OpResult::Refused(status)))?,
            _ => self.push(CbRes::Unbuilt(number, status))?,
        }
        Ok(status)
    }

    /// A CB_LAYOUTRECALL came to this.
    fn recalled(&mut self, status: Stat4) -> Result<(), NoMemory>
        ensures { OnOk result (self.new ≡ self.old ++ cb_recall_result status ∷ []) }
    {
        match status {
            Stat4::Ok => self.push(CbRes::LayoutRecall(OpResult::Done(()))),
            _ => self.push(CbRes::LayoutRecall(OpResult::Refused(status))),
        }
    }

    /// A CB_SEQUENCE on slot 0 was done.
    fn begun(&mut self, session: SessionId, sequence: u32) -> Result<(), NoMemory>
        ensures { OnOk result (self.new ≡ self.old ++ cb_sequence_result session sequence ∷ []) }
    {
        self.push(CbRes::Sequence(OpResult::Done(CbSequenceOk {
            session,
            sequence,
            slot: 0,
            highest: 0,
            target_highest: 0,
        })))
    }

    /// The operation with this number is not built.
    fn unread(&mut self, number: u32) -> Result<Stat4, NoMemory>
        ensures { IfOk result (λ end. HasGivenResults (stopped (stop.Unread number)) self.old self.new end) }
    {
        if number < 3 || number > 14 {
            return self.refuse(ILLEGAL, Stat4::OpIllegal);
        }
        self.refuse(number, Stat4::NotSupp)
    }

    /// The operations of a callback that came before: the kept status of its recall is answered again, and nothing else
    /// is done.
    fn repeat(&mut self, status: Stat4, ops: &mut CbOps<'_>) -> Result<Stat4, NoMemory>
        ensures { IfOk result (λ end. HasGivenResults (cb_repeated status ops.old.values ops.old.stop) self.old self.new end) }
    {
        match ops.next() {
            NextOp::Op(CbOp::LayoutRecall(_)) => {
                self.recalled(status)?;
                Ok(status)
            }
            NextOp::Op(CbOp::Sequence(_)) => self.refuse(SEQUENCE, Stat4::SequencePos),
            NextOp::Unread(number) => self.unread(number),
            NextOp::Bad(_) => self.refuse(ILLEGAL, Stat4::BadXdr),
            NextOp::End => Ok(Stat4::Ok),
        }
    }

    /// Appends the result of the compound, or nothing.
    pub fn put(&self, status: Stat4, tag: &str, out: &mut Out) -> Result<(), NoMemory>
        requires tag { length tag.now ≤ 1024 }
        requires count { length self.now < 2 ^ 32 }
        ensures { Puts out.old result out.new (spelling cb_compound4_res (stat4_number status, (tag.now, self.now))) }
    {
        put_cb_results(status, tag, self.results.as_slice(), out)
    }
}

/// The operations behind CB_SEQUENCE.
fn do_behind(
    client: &mut State,
    ops: &mut CbOps<'_>,
    results: &mut CbResults,
) -> Result<Stat4, NoMemory>
    ensures { IfOk result (λ end. HasJudgedCb (cb_behind ops.old.values ops.old.stop client.old) results.old results.new end client.new) }
{
    loop {
        match ops.next() {
            NextOp::Op(CbOp::LayoutRecall(args)) => {
                let status = recall(client, &args);
                results.recalled(status)?;
                if status != Stat4::Ok {
                    return Ok(status);
                }
            }
            NextOp::Op(CbOp::Sequence(_)) => {
                return results.refuse(SEQUENCE, Stat4::SequencePos);
            }
            NextOp::Unread(number) => return results.unread(number),
            NextOp::Bad(_) => return results.refuse(ILLEGAL, Stat4::BadXdr),
            NextOp::End => return Ok(Stat4::Ok),
        }
    }
}

/// The same, and the status of the recall that stands first there is kept.
fn do_kept(
    client: &mut State,
    slot: &mut CbSlot,
    ops: &mut CbOps<'_>,
    results: &mut CbResults,
) -> Result<Stat4, NoMemory>
    ensures judged { IfOk result (λ end. HasJudgedCb (cb_behind ops.old.values ops.old.stop client.old) results.old results.new end client.new) }
    ensures kept { OnOk result (slot.new ≡ kept_of_recall (recall_status ops.old.values client.old) slot.old) }
{
    match ops.next() {
        NextOp::Op(CbOp::LayoutRecall(args)) => {
            let status = recall(client, &args);
            slot.kept(status);
            results.recalled(status)?;
            if status != Stat4::Ok {
                return Ok(status);
            }
            do_behind(client, ops, results)
        }
        NextOp::Op(CbOp::Sequence(_)) => results.refuse(SEQUENCE, Stat4::SequencePos),
        NextOp::Unread(number) => results.unread(number),
        NextOp::Bad(_) => results.refuse(ILLEGAL, Stat4::BadXdr),
        NextOp::End => Ok(Stat4::Ok),
    }
}

/// A new callback takes effect. The status of its recall is kept with its number (RFC 8881, section 2.10.6).
fn do_new(
    client: &mut State,
    mut session: OwnSession,
    ops: &mut CbOps<'_>,
    results: &mut CbResults,
) -> Result<Stat4, NoMemory>
    ensures { IfOk result (λ end. HasJudgedCb (with_cb_slot session (kept_of_recall (recall_status ops.old.values client.old) session.callbacks) (cb_behind ops.old.values ops.old.stop client.old)) results.old results.new end client.new) }
{
    let status = do_kept(client, &mut session.callbacks, ops, results)?;
    client.tie = Tie::HasSession(session);
    Ok(status)
}

/// A callback of this number on the client's slot.
fn begin(
    client: &mut State,
    mut session: OwnSession,
    number: u32,
    ops: &mut CbOps<'_>,
    results: &mut CbResults,
) -> Result<Stat4, NoMemory>
    ensures { IfOk result (λ end. HasJudgedCb (cb_begun session number (cb_begin session.callbacks number) ops.old.values ops.old.stop client.old) results.old results.new end client.new) }
{
    match session.callbacks.take(number) {
        CbBegin::New => {
            results.begun(session.id, number)?;
            do_new(client, session, ops, results)
        }
        CbBegin::Again(status) => {
            results.begun(session.id, number)?;
            results.repeat(status, ops)
        }
        CbBegin::Misordered => results.refuse(SEQUENCE, Stat4::SeqMisordered),
    }
}

/// CB_SEQUENCE: in the client's session alone, and on slot 0 alone (RFC 8881, section 20.9).
fn begin_in_session(
    client: &mut State,
    args: &CbSequenceArgs<'_>,
    ops: &mut CbOps<'_>,
    results: &mut CbResults,
) -> Result<Stat4, NoMemory>
    ensures { IfOk result (λ end. HasJudgedCb (cb_in_session client.old.tie (cb_sequence4_args_value args.now) ops.old.values ops.old.stop client.old) results.old results.new end client.new) }
{
    let Tie::HasSession(session) = client.tie else {
        return results.refuse(SEQUENCE, Stat4::BadSession);
    };
    if args.session != session.id {
        return results.refuse(SEQUENCE, Stat4::BadSession);
    }
    if args.slot != 0 {
        return results.refuse(SEQUENCE, Stat4::BadSlot);
    }
    begin(client, session, args.sequence, ops, results)
}

/// The operations of a callback compound: no other than CB_SEQUENCE stands first.
pub fn do_callbacks(
    client: &mut State,
    ops: &mut CbOps<'_>,
    results: &mut CbResults,
) -> Result<Stat4, NoMemory>
    ensures { IfOk result (λ end. HasJudgedCb (cb_first ops.old.values ops.old.stop client.old) results.old results.new end client.new) }
{
    match ops.next() {
        NextOp::Op(CbOp::Sequence(args)) => begin_in_session(client, &args, ops, results),
        NextOp::Op(CbOp::LayoutRecall(_)) => { results.refuse(LAYOUTRECALL, Stat4::OpNotInSession) }
        NextOp::Unread(number) => results.unread(number),
        NextOp::Bad(_) => results.refuse(ILLEGAL, Stat4::BadXdr),
        NextOp::End => Ok(Stat4::Ok),
    }
}
