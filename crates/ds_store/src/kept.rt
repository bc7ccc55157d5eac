//! A data server and its log, on two disks that are handed to each call.

ghost use Rattle.std.specs.Prelude.{◌≡◌, ◌<◌, None, Some, IfOk};
ghost use Rattle.rpc_record.specs.Rpc.{plain_credential};
ghost use Rattle.nfs3_wire.specs.Calls.{plain_call};
ghost use Rattle.ds_procedures.specs.Answer.{answer_of};
ghost use Rattle.ds_procedures.specs.Steps.{step_of};
ghost use Rattle.ds_files.specs.Receive.{outcome_of};
ghost use Rattle.ds_files.specs.declared.logging.Logging.TheVariants.{On};
ghost use Rattle.ds_log.specs.Steady.{IsSteady};
ghost use Rattle.twin_log.specs.LogCalls.{CountsTwins};
ghost use Rattle.ds_store.specs.Renewals.{IsLogBounded};
ghost use Rattle.ds_store.specs.Kept.{Posts, StandsOnDisks, StepsSafely, fault_of, plain_fault, spent_of};

use crate::fault::StoreFault;
use cluster_model::{NodeId, Outbox};
use ds_files::{Answer3, DataServer, Logging, take_back};
use nfs3_wire::Call3;
use rpc_record::{AuthSys, Failed};
use std::alloc::Global;
use std::marker::Model;
use store_disk::Disk;
use twin_log::KeptLog;

/// A data server whose log is on two disks, which each call is handed, always the same in the same order. What a call changes
/// for good is in the log, and synced, before it is answered: by `apply` and `on_record` at once, and of calls that came
/// together by `take_record` for each and one `settle` behind them.
#[derive(Drop)]
pub struct KeptServer {
    pub(crate) alloc: Global,
    pub(crate) server: DataServer,
    pub(crate) log: KeptLog,
    // where the log is no longer than this many bytes it needs no renewal
    pub(crate) limit: u64,
    // why it is to be opened again
    pub(crate) spent: Option<StoreFault>,
}

impl Model for KeptServer {
    ghost use Rattle.std.specs.Prelude.{◌<◌, ◌≤◌};
    ghost use Rattle.ds_log.specs.Steady.{IsSteady};
    ghost use Rattle.ds_store.specs.Renewals.{log_limit};
    ghost use Rattle.ds_store.specs.Kept.{KeptState, IsSpentBy};

    ghost Value = { KeptState };

    ghost view = { λ k. record { server = k.server; log = k.log; spent = k.spent } };

    ghost invariant = { λ k. IsSteady k.server × (0 < k.server.clock.boot) × IsSpentBy k.spent × (k.limit ≤ log_limit k.server) };
}

impl KeptServer {
    /// A server whose log is this.
    pub(crate) fn new(alloc: Global, server: DataServer, log: KeptLog) -> KeptServer
        requires steady { IsSteady server }
        requires booted { 0 < server.clock.boot }
        ensures { result ≡ record { server = server; log = log; spent = None } }
    {
        KeptServer {
            alloc,
            server,
            log,
            limit: 0,
            spent: None,
        }
    }

    /// Notes how a call of the log failed, which is to be opened again.
    pub(crate) fn spend(&mut self, failed: Failed) -> StoreFault
        ensures fault { result ≡ fault_of failed }
        ensures spent { self.new ≡ record self.old { spent = Some (spent_of failed) } }
    {
        match failed {
            Failed::Fault => {
                self.spent = Some(StoreFault::Broken);
                StoreFault::Disk
            }
            Failed::NoMemory => {
                self.spent = Some(StoreFault::NoMemory);
                StoreFault::NoMemory
            }
        }
    }

    /// The server.
    pub fn server(&self) -> &DataServer
        ensures { result.now ≡ self.now.server }
    {
        &self.server
    }

    /// Does a call by a credential, by the rule of a data server (RFC 1813). Refusals are answers.
    ///
    /// `StoreFault::Disk` is a fault of a disk, and then this is to be opened again, as each later call answers (`Broken`); so
    /// it is where a disk, or a renewal of the log, wanted memory. For any other want of memory nothing has changed.
    pub fn apply<D: Disk>(
        &mut self,
        disk: &mut D,
        spare: &mut D,
        call: &Call3<'_>,
        cred: &AuthSys<'_>,
    ) -> Result<Answer3, StoreFault>
        requires { StandsOnDisks self.old (D.told disk.old) (D.told spare.old) }
        ensures answer { IfOk result (λ answer. answer ≡ answer_of (step_of self.old.server (plain_call call.now) (plain_credential cred.now))) }
        ensures steps { StepsSafely self.old.spent (step_of self.old.server (plain_call call.now) (plain_credential cred.now)).server self.old (D.told disk.old) (D.told spare.old) result self.new (D.told disk.new) (D.told spare.new) }
        ensures stands { StandsOnDisks self.new (D.told disk.new) (D.told spare.new) }
        ensures bounded { IsLogBounded self.old.server self.old.log result self.new.server self.new.log (D.told disk.new) (D.told spare.new) }
        ensures faults { CountsTwins (plain_fault result) (D.faults disk.old) (D.faults spare.old) (D.faults disk.new) (D.faults spare.new) }
    {
        if let Some(fault) = self.spent {
            return Err(fault);
        }
        let answer = self.stage_call(disk, spare, call, cred)?;
        self.settle_all(disk, spare)?;
        Ok(answer)
    }

    /// Takes a record from a node, and puts out the reply to it and the entries of the step. Nothing is put out for a
    /// record that is no call. At an error nothing is put out, and else it is as at one of `apply`.
    pub fn on_record<D: Disk>(
        &mut self,
        disk: &mut D,
        spare: &mut D,
        from: NodeId,
        message: &[u8],
        out: &mut Outbox,
    ) -> Result<(), StoreFault>
        requires { StandsOnDisks self.old (D.told disk.old) (D.told spare.old) }
        ensures posts { Posts On (outcome_of self.old.server message.now) from result out.old out.new }
        ensures steps { StepsSafely self.old.spent (outcome_of self.old.server message.now).server self.old (D.told disk.old) (D.told spare.old) result self.new (D.told disk.new) (D.told spare.new) }
        ensures stands { StandsOnDisks self.new (D.told disk.new) (D.told spare.new) }
        ensures bounded { IsLogBounded self.old.server self.old.log result self.new.server self.new.log (D.told disk.new) (D.told spare.new) }
        ensures faults { CountsTwins (plain_fault result) (D.faults disk.old) (D.faults spare.old) (D.faults disk.new) (D.faults spare.new) }
    {
        if let Some(fault) = self.spent {
            return Err(fault);
        }
        let (sends, entered) = (out.sends.len(), out.entries.len());
        self.stage_record(disk, spare, from, message, Logging::On, out)?;
        if let Err(fault) = self.settle_all(disk, spare) {
            take_back(out, sends, entered);
            return Err(fault);
        }
        Ok(())
    }
}
