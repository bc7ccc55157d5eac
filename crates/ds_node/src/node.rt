//! A data server as a node.

ghost use Rattle.std.specs.Prelude.{◌≡◌, ◌++◌, ℕ, None, IfOk, OnOk};
ghost use Rattle.cluster_model.specs.Server.{ServerState};
ghost use Rattle.ds_files.specs.Receive.{outcome_of};
ghost use Rattle.ds_files.specs.Records.{sent_to};
ghost use Rattle.store_disk.specs.Disks.{both_faults};
ghost use Rattle.ff_node.specs.Serve.{KeepsOr, disk_counted, sink_counted};
ghost use Rattle.ds_node.specs.Standing.{stood, turned};
ghost use Rattle.ds_node.specs.DsNodes.{IsUnspent, KeepsSettled, event_fault, gives_none, server_excuses, server_leaves, server_rule, settle_fault};

use cluster_model::{FailCause, NodeId, Outbox};
use ds_files::Logging;
use ds_store::{KeptServer, StoreFault};
use ff_node::{EventFault, Node};
use node_link::Arrival;
use record_link::is_call_record;
use rpc_record::{Failed, Sink};
use std::marker::Model;
use store_disk::Disk;

/// So many more calls are taken together with one, and synced together.
const MORE_AT_ONCE: u32 = 63;

/// A data server as a node.
#[derive(Drop)]
pub(crate) struct DsNode {
    kept: KeptServer,
}

impl Model for DsNode {
    ghost use Rattle.ds_store.specs.Kept.{KeptState};

    ghost Value = { KeptState };

    ghost view = { λ n. n.kept };
}

/// How the log that could not be settled ends it.
fn failed_of(fault: StoreFault) -> Failed
    ensures { result ≡ settle_fault fault }
{
    match fault {
        StoreFault::Disk => Failed::Fault,
        StoreFault::Broken => Failed::Fault,
        StoreFault::NoMemory => Failed::NoMemory,
    }
}

/// How a call that was not done ends an event.
fn fault_of(fault: StoreFault) -> EventFault
    ensures { result ≡ event_fault fault }
{
    match fault {
        StoreFault::Disk => EventFault::Disk,
        StoreFault::Broken => EventFault::Disk,
        StoreFault::NoMemory => EventFault::NoMemory,
    }
}

impl DsNode {
    pub(crate) fn new(kept: KeptServer) -> DsNode
        ensures { result ≡ kept }
    {
        DsNode { kept }
    }

    /// Takes a record. Answers whether it gives no reply to it.
    fn answer<D: Disk>(
        &mut self,
        from: NodeId,
        bytes: &[u8],
        out: &mut Outbox,
        disk: &mut D,
        spare: &mut D,
    ) -> Result<bool, EventFault>
        requires { IsUnspent self.old }
        ensures usable { OnOk result (IsUnspent self.new) }
        ensures state { OnOk result (self.new.server ≡ (outcome_of self.old.server bytes.now).server) }
        ensures sends { OnOk result (out.new.sends.items ≡ out.old.sends.items ++ sent_to from (outcome_of self.old.server bytes.now).reply) }
        ensures none { IfOk result (λ none. none ≡ gives_none (outcome_of self.old.server bytes.now).reply) }
        ensures keeps { (settled : ServerState) → KeepsSettled settled self.old (D.told disk.old) (D.told spare.old) → KeepsOr KeepsSettled server_leaves settled self.new result (D.told disk.new) (D.told spare.new) }
        ensures faults { both_faults (D.faults disk.new) (D.faults spare.new) ≡ disk_counted result (both_faults (D.faults disk.old) (D.faults spare.old)) }
        ensures sink { (n : ℕ) → sink_counted result n ≡ n }
    {
        let before = out.sends.len();
        if let Err(fault) = self
            .kept
            .take_record(disk, spare, from, bytes, Logging::Off, out)
        {
            return Err(fault_of(fault));
        }
        Ok(out.sends.len() == before)
    }
}

impl Node for DsNode {
    ghost State = { ServerState };

    ghost state = { λ n. n.server };

    ghost rule = { server_rule };

    ghost excuses = { λ n a. server_excuses n.server a };

    ghost is_usable = { IsUnspent };

    ghost keeps = { KeepsSettled };

    ghost leaves = { server_leaves };

    ghost stood = { stood };

    ghost turned = { turned };

    /// A record is answered to the node that it comes from; no other arrival does anything.
    fn take<K: Sink, D: Disk>(
        &mut self,
        _moment: u64,
        arrival: Arrival,
        out: &mut Outbox,
        _sink: &mut K,
        disk: &mut D,
        spare: &mut D,
    ) -> Result<bool, EventFault> {
        match arrival {
            Arrival::Record { from, bytes } => {
                let gives_none = match self.answer(from, bytes.bytes(), out, disk, spare) {
                    Ok(gives_none) => gives_none,
                    Err(fault) => return Err(fault),
                };
                Ok(is_call_record(bytes.bytes()) && gives_none)
            }
            Arrival::TimedOut { .. } => Ok(false),
            Arrival::Quiet => Ok(false),
            Arrival::Closed => Ok(false),
        }
    }

    fn has_waiting(&self) -> bool {
        self.kept.has_waiting()
    }

    fn settle<D: Disk>(&mut self, disk: &mut D, spare: &mut D) -> Result<(), Failed> {
        if let Err(fault) = self.kept.settle(disk, spare) {
            return Err(failed_of(fault));
        }
        Ok(())
    }

    fn outcome(&self) -> Option<Result<(), FailCause>> {
        None
    }

    fn is_server(&self) -> bool {
        true
    }

    fn more_at_once(&self) -> u32 {
        MORE_AT_ONCE
    }
}
