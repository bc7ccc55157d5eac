//! Calls that are done in memory, and whose records wait behind the log.

ghost use Rattle.std.specs.Prelude.{◌≡◌, None, Some, Option, IfOk, OnOk, length};
ghost use Rattle.rpc_record.specs.Rpc.{plain_credential};
ghost use Rattle.nfs3_wire.specs.Calls.{plain_call};
ghost use Rattle.cluster_model.specs.Server.{ServerState, server_after};
ghost use Rattle.store_disk.specs.Disks.{DiskLife};
ghost use Rattle.ds_procedures.specs.Answer.{answer_of};
ghost use Rattle.ds_procedures.specs.CodePlans.{plain_effect};
ghost use Rattle.ds_procedures.specs.Steps.{step_of};
ghost use Rattle.ds_files.specs.Decisions.{CanDo};
ghost use Rattle.ds_files.specs.Receive.{outcome_of};
ghost use Rattle.ds_log.specs.Durable.{applied_bytes, durable};
ghost use Rattle.ds_log.specs.Steady.{IsSteady};
ghost use Rattle.twin_log.specs.KeptLogs.{has_waiting};
ghost use Rattle.twin_log.specs.LogCalls.{CountsTwins, staged_log};
ghost use Rattle.ds_store.specs.Kept.{Becomes, IsRecordOf, Posts, SpendsBy, TakesCall, TakesSince, WaitsForOne, WaitsSince, plain_fault};

use crate::fault::StoreFault;
use crate::kept::KeptServer;
use cluster_model::{NodeId, Outbox};
use ds_changes::log_body;
use ds_files::{Answer3, DataServer, Logging, post, take_back};
use ds_procedures::Effect;
use ff_xdr::NoMemory;
use gate_log::Gated;
use nfs3_wire::Call3;
use rpc_record::AuthSys;
use std::alloc::Global;
use store_disk::Disk;

/// The record of what is to be done, where it is to be logged.
fn record_of(
    alloc: Global,
    server: &DataServer,
    effect: &Effect<'_>,
) -> Result<Option<Gated>, NoMemory>
    requires can { CanDo server.now (plain_effect effect.now) }
    requires steady { IsSteady server.now }
    ensures { IfOk result (λ body. IsRecordOf server.now (plain_effect effect.now) body) }
{
    match log_body(alloc, server, effect)? {
        Some(body) => Ok(Some(Gated::new(alloc, &body)?)),
        None => Ok(None),
    }
}

impl KeptServer {
    /// Records wait behind the log: what calls changed for good that were taken since it was settled last.
    pub fn has_waiting(&self) -> bool
        ensures { result ≡ has_waiting self.now.log }
    {
        self.log.has_waiting()
    }

    /// Writes a record that waits behind the log.
    fn stage<D: Disk>(
        &mut self,
        disk: &mut D,
        spare: &mut D,
        message: &Gated,
    ) -> Result<(), StoreFault>
        requires going { self.old.spent ≡ None }
        ensures waits { (before settled : ServerState) (began began_spare : Option DiskLife) → WaitsSince settled before self.old.log began began_spare (D.told disk.old) (D.told spare.old) → before.number ≡ self.old.server.number → applied_bytes (durable before) message.now ≡ Some (durable self.old.server) → TakesSince settled began began_spare result self.new (D.told disk.new) (D.told spare.new) }
        ensures server { self.new.server ≡ self.old.server }
        ensures spent { SpendsBy result self.new.spent }
        ensures moves { OnOk result (self.new.log ≡ staged_log self.old.log (length message.now)) }
        ensures faults { CountsTwins (plain_fault result) (D.faults disk.old) (D.faults spare.old) (D.faults disk.new) (D.faults spare.new) }
    {
        match self.log.stage(disk, spare, message) {
            Ok(()) => Ok(()),
            Err(failed) => Err(self.spend(failed)),
        }
    }

    /// Does what is to be done; its record waits.
    fn keep<D: Disk>(
        &mut self,
        disk: &mut D,
        spare: &mut D,
        effect: &Effect<'_>,
    ) -> Result<(), StoreFault>
        requires can { CanDo self.old.server (plain_effect effect.now) }
        requires going { self.old.spent ≡ None }
        ensures becomes { Becomes (server_after self.old.server (plain_effect effect.now)) self.old (D.told disk.old) (D.told spare.old) result self.new (D.told disk.new) (D.told spare.new) }
        ensures waits { (settled : ServerState) (began began_spare : Option DiskLife) → WaitsSince settled self.old.server self.old.log began began_spare (D.told disk.old) (D.told spare.old) → TakesSince settled began began_spare result self.new (D.told disk.new) (D.told spare.new) }
        ensures one { OnOk result (WaitsForOne self.old.server self.old.log self.new.server self.new.log) }
        ensures faults { CountsTwins (plain_fault result) (D.faults disk.old) (D.faults spare.old) (D.faults disk.new) (D.faults spare.new) }
    {
        let message = record_of(self.alloc, &self.server, effect)?;
        self.server.carry_out(effect)?;
        match message {
            Some(message) => self.stage(disk, spare, &message),
            None => Ok(()),
        }
    }

    /// Does a call by a credential; its record waits.
    pub(crate) fn stage_call<D: Disk>(
        &mut self,
        disk: &mut D,
        spare: &mut D,
        call: &Call3<'_>,
        cred: &AuthSys<'_>,
    ) -> Result<Answer3, StoreFault>
        requires going { self.old.spent ≡ None }
        ensures answer { IfOk result (λ answer. answer ≡ answer_of (step_of self.old.server (plain_call call.now) (plain_credential cred.now))) }
        ensures becomes { Becomes (step_of self.old.server (plain_call call.now) (plain_credential cred.now)).server self.old (D.told disk.old) (D.told spare.old) result self.new (D.told disk.new) (D.told spare.new) }
        ensures waits { (settled : ServerState) (began began_spare : Option DiskLife) → WaitsSince settled self.old.server self.old.log began began_spare (D.told disk.old) (D.told spare.old) → TakesSince settled began began_spare result self.new (D.told disk.new) (D.told spare.new) }
        ensures one { OnOk result (WaitsForOne self.old.server self.old.log self.new.server self.new.log) }
        ensures faults { CountsTwins (plain_fault result) (D.faults disk.old) (D.faults spare.old) (D.faults disk.new) (D.faults spare.new) }
    {
        let decision = self.server.decide_call(call, cred)?;
        let effect = decision.effect;
        self.keep(disk, spare, &effect)?;
        Ok(decision.answer)
    }

    /// Takes a record from a node, and puts out the reply to it, and the entries of the step where a journal is kept; what is
    /// to be logged waits.
    pub(crate) fn stage_record<D: Disk>(
        &mut self,
        disk: &mut D,
        spare: &mut D,
        from: NodeId,
        message: &[u8],
        logging: Logging,
        out: &mut Outbox,
    ) -> Result<(), StoreFault>
        requires going { self.old.spent ≡ None }
        ensures posts { Posts logging (outcome_of self.old.server message.now) from result out.old out.new }
        ensures becomes { Becomes (outcome_of self.old.server message.now).server self.old (D.told disk.old) (D.told spare.old) result self.new (D.told disk.new) (D.told spare.new) }
        ensures waits { (settled : ServerState) (began began_spare : Option DiskLife) → WaitsSince settled self.old.server self.old.log began began_spare (D.told disk.old) (D.told spare.old) → TakesSince settled began began_spare result self.new (D.told disk.new) (D.told spare.new) }
        ensures one { OnOk result (WaitsForOne self.old.server self.old.log self.new.server self.new.log) }
        ensures faults { CountsTwins (plain_fault result) (D.faults disk.old) (D.faults spare.old) (D.faults disk.new) (D.faults spare.new) }
    {
        let decision = self.server.decide(message, logging)?;
        let effect = decision.effect;
        let (sends, entered) = (out.sends.len(), out.entries.len());
        post(out, from, decision.reply, decision.entries)?;
        if let Err(fault) = self.keep(disk, spare, &effect) {
            take_back(out, sends, entered);
            return Err(fault);
        }
        Ok(())
    }

    /// Takes a record from a node, as one of those that came together: puts out the reply to it, which is to be sent behind
    /// `settle` alone, and the entries of the step where a journal is kept. Nothing is put out for a record that is no call.
    /// At an error nothing is put out, and else it is as at one of `apply`.
    pub fn take_record<D: Disk>(
        &mut self,
        disk: &mut D,
        spare: &mut D,
        from: NodeId,
        message: &[u8],
        logging: Logging,
        out: &mut Outbox,
    ) -> Result<(), StoreFault>
        ensures posts { Posts logging (outcome_of self.old.server message.now) from result out.old out.new }
        ensures takes { TakesCall self.old.spent (outcome_of self.old.server message.now).server self.old (D.told disk.old) (D.told spare.old) result self.new (D.told disk.new) (D.told spare.new) }
        ensures waits { (settled : ServerState) (began began_spare : Option DiskLife) → WaitsSince settled self.old.server self.old.log began began_spare (D.told disk.old) (D.told spare.old) → TakesSince settled began began_spare result self.new (D.told disk.new) (D.told spare.new) }
        ensures one { OnOk result (WaitsForOne self.old.server self.old.log self.new.server self.new.log) }
        ensures faults { CountsTwins (plain_fault result) (D.faults disk.old) (D.faults spare.old) (D.faults disk.new) (D.faults spare.new) }
    {
        if let Some(fault) = self.spent {
            return Err(fault);
        }
        self.stage_record(disk, spare, from, message, logging, out)
    }
}
