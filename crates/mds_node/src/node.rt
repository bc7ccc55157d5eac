//! A metadata server as a node.

ghost use Rattle.std.specs.Prelude.{⊤, ◌≡◌, ◌≤◌, ◌++◌, false, length, IfOk, OnOk};
ghost use Rattle.node_config.specs.Configs.{config_value};
ghost use Rattle.node_config.specs.declared.config.TheConstants.{MAX_MIRRORS, MAX_SERVERS};
ghost use Rattle.mds_rule.specs.MdsStates.{new_mds};
ghost use Rattle.mds_rule.specs.Spelled.{records_sent};
ghost use Rattle.mds_node.specs.MdsNodes.{MdsNodeValue, fresh_mds_node, mds_does, mds_hears, mds_node_after, mds_node_rule, mds_passes};
ghost use Rattle.ff_node.specs.Nodes.{event_at};
ghost use Rattle.ff_node.specs.Serve.{LeavesNothing};

use cluster_model::{FailCause, Outbox};
use ff_node::{EventFault, Node, is_new_moment};
use ff_xdr::NoMemory;
use mds_core::Mds;
use node_config::Config;
use node_link::Arrival;
use rpc_record::{Failed, Sink};
use std::alloc::Global;
use std::marker::Model;
use store_disk::Disk;

/// A metadata server as a node, with the last moment that it was given. Each call that comes to it gets an answer, at once
/// or when what it waits for is done.
#[derive(Drop)]
pub(crate) struct MdsNode {
    mds: Mds,
    last: Option<u64>,
}

impl Model for MdsNode {
    ghost use Rattle.mds_node.specs.MdsNodes.{MdsNodeValue};

    ghost Value = { MdsNodeValue };

    ghost view = { λ n. record { mds = n.mds.mds; last = n.last } };
}

/// Time passes for a metadata server to `now`, in seconds, where that is above the last moment that it was given.
fn pass_time(mds: &mut Mds, last: Option<u64>, now: u64, out: &mut Outbox) -> Result<(), NoMemory>
    ensures state { OnOk result (mds.new.mds ≡ (mds_passes last now mds.old.mds).mds) }
    ensures sends { OnOk result (out.new.sends.items ≡ out.old.sends.items ++ records_sent (mds_passes last now mds.old.mds)) }
{
    if !is_new_moment(last, now) {
        return Ok(());
    }
    mds.tick(now, out)
}

/// A record came, or the call of this number timed out, at `now`, in seconds.
fn hear(mds: &mut Mds, now: u64, arrival: Arrival, out: &mut Outbox) -> Result<(), NoMemory>
    ensures state { OnOk result (mds.new.mds ≡ (mds_hears now arrival mds.old.mds).mds) }
    ensures sends { OnOk result (out.new.sends.items ≡ out.old.sends.items ++ records_sent (mds_hears now arrival mds.old.mds)) }
{
    match arrival {
        Arrival::Record { from, bytes } => mds.on_record(from, bytes.bytes(), now, out),
        Arrival::TimedOut { node, xid } => mds.on_timeout(node, Some(xid), now, out),
        Arrival::Quiet => Ok(()),
        Arrival::Closed => Ok(()),
    }
}

impl MdsNode {
    /// A new one, with no clients and no files, which was given no moment yet. Takes memory.
    pub(crate) fn new(alloc: Global, config: &Config) -> Result<MdsNode, NoMemory>
        requires mirrored { 1 ≤ config.now.mirrors }
        requires few { config.now.mirrors ≤ MAX_MIRRORS }
        requires within { config.now.mirrors ≤ length config.now.servers.items }
        requires servers { length config.now.servers.items ≤ MAX_SERVERS }
        ensures { IfOk result (λ node. node ≡ fresh_mds_node (new_mds (config_value config.now).servers (config_value config.now).mirrors)) }
    {
        Ok(MdsNode {
            mds: Mds::new(alloc, config)?,
            last: None,
        })
    }

    /// Time passes to `now`, in seconds, where that is above the last moment; and then a record comes, or a call times out.
    fn do_event(&mut self, now: u64, arrival: Arrival, out: &mut Outbox) -> Result<(), NoMemory>
        ensures state { OnOk result (self.new ≡ mds_node_after (event_at now arrival) self.old) }
        ensures sends { OnOk result (out.new.sends.items ≡ out.old.sends.items ++ records_sent (mds_does (event_at now arrival) self.old)) }
    {
        let last = self.last;
        pass_time(&mut self.mds, last, now, out)?;
        hear(&mut self.mds, now, arrival, out)?;
        self.last = Some(now);
        Ok(())
    }
}

impl Node for MdsNode {
    ghost State = { MdsNodeValue };

    ghost state = { λ n. n };

    ghost rule = { mds_node_rule };

    ghost excuses = { λ _ _. false };

    ghost is_usable = { λ _. ⊤ };

    ghost keeps = { λ _ _ _ _. ⊤ };

    ghost leaves = { LeavesNothing };

    ghost stood = { λ _ _ _ _ _ _. tt };

    ghost turned = { λ _ _ _ _ _. tt };

    fn take<K: Sink, D: Disk>(
        &mut self,
        moment: u64,
        arrival: Arrival,
        out: &mut Outbox,
        _sink: &mut K,
        _disk: &mut D,
        _spare: &mut D,
    ) -> Result<bool, EventFault> {
        match self.do_event(moment, arrival, out) {
            Ok(()) => Ok(false),
            Err(NoMemory) => Err(EventFault::NoMemory),
        }
    }

    fn has_waiting(&self) -> bool {
        false
    }

    /// It remembers nothing.
    fn settle<D: Disk>(&mut self, _disk: &mut D, _spare: &mut D) -> Result<(), Failed> {
        Ok(())
    }

    fn outcome(&self) -> Option<Result<(), FailCause>> {
        None
    }

    fn is_server(&self) -> bool {
        true
    }

    fn more_at_once(&self) -> u32 {
        0
    }
}
