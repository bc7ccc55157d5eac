//! The world of a cluster.

ghost use Rattle.std.specs.Prelude.{◌≡◌, ◌≤◌, IfOk, Err, Some, None, length, option_copied, option_map};
ghost use Rattle.node_config.specs.declared.config.TheConstants.{MAX_SERVERS, MAX_MIRRORS, MAX_NUMBER};
ghost use Rattle.world_journal.specs.Journal.{IsJournalInRange};
ghost use Rattle.world_journal.specs.declared.fault.WorldFault.{WorldFault};
ghost use Rattle.packet_table.specs.Packets.{next_waiting};
ghost use Rattle.cluster_script.specs.ClusterLines.{cluster_event};
ghost use Rattle.world_rule.specs.Machines.{nth};
ghost use Rattle.world_rule.specs.ClusterWorlds.{new_cluster, packets, behind};
ghost use Rattle.cluster_world.specs.WorldSteps.{IsOfScript, IsNoted, StageBecomes, WorldBecomes, Flows};

use crate::stage::Stage;
use cluster_model::{Entry, Pieces};
use cluster_script::{ClusterEvent, ClusterSizes};
use ds_files::DataServer;
use ff_xdr::NoMemory;
use mds_core::Mds;
use mirror_client::Client;
use std::alloc::Global;
use std::marker::Model;
use world_journal::WorldFault;

/// The world of a cluster: its machines, the moment, the packets between machines, and the journal of what happened. It is
/// spent once an event did not happen: it answers each later one by the same error, and its journal stays.
#[derive(Drop)]
pub struct ClusterWorld {
    stage: Stage,
    spent: Option<WorldFault>,
}

impl Model for ClusterWorld {
    ghost use Rattle.cluster_world.specs.WorldSteps.{ClusterValue, AreNoted};

    ghost Value = { ClusterValue };

    ghost view = { λ w. record { world = w.stage.world; packets = w.stage.packets; spent = w.spent } };

    ghost invariant = { λ w. AreNoted w.spent w.stage };
}

impl Stage {
    /// An event of a script happens that is no flow.
    fn happen(&mut self, event: &ClusterEvent<'_>) -> Result<(), WorldFault>
        requires noted { IsNoted self.old }
        requires ranges { IsOfScript (cluster_event event.now) }
        ensures { StageBecomes self.old (behind (cluster_event event.now) self.old.world) result self.new }
    {
        match event {
            ClusterEvent::DeliverPacket(number) => self.deliver(u64::from(*number)),
            ClusterEvent::DeliverBetween { from, to, place } => {
                self.deliver_between(*from, *to, *place)
            }
            ClusterEvent::Flow => self.stay(),
            ClusterEvent::Hold { from, to } => self.hold(*from, *to),
            ClusterEvent::Pass { from, to } => self.pass(*from, *to),
            ClusterEvent::Timeout { node, to } => self.time_out(*node, *to),
            ClusterEvent::Tick(seconds) => self.tick(*seconds),
            ClusterEvent::Open { client, name } => self.open(*client, name),
            ClusterEvent::Write { client, at, bytes } => {
                let bytes = bytes.decode(self.alloc)?;
                self.write(*client, *at, &bytes)
            }
            ClusterEvent::Through { client, at, bytes } => {
                let bytes = bytes.decode(self.alloc)?;
                self.through(*client, *at, &bytes)
            }
            ClusterEvent::Fill {
                client,
                at,
                count,
                byte,
            } => self.fill(*client, *at, *count, *byte),
            ClusterEvent::Commit(client) => self.commit(*client),
            ClusterEvent::Read { client, at, count } => self.read(*client, *at, *count),
            ClusterEvent::Return(client) => self.return_all(*client),
            ClusterEvent::Rogue(client) => self.turn(*client),
            ClusterEvent::Stray {
                client,
                mirror,
                at,
                bytes,
            } => {
                let bytes = bytes.decode(self.alloc)?;
                self.stray(*client, *mirror, *at, &bytes)
            }
            ClusterEvent::Reboot(client) => self.reboot(*client),
            ClusterEvent::Restart { server, pieces } => {
                let pieces = pieces.decode(self.alloc)?;
                self.restart(*server, Pieces::from_vec(pieces))
            }
            ClusterEvent::Recall(file) => self.recall(*file),
            ClusterEvent::Resilver(file) => self.resilver(*file),
            ClusterEvent::Audit(file) => self.audit(*file),
        }
    }
}

impl ClusterWorld {
    /// The world of a cluster of these sizes, before any event. Takes memory.
    pub fn new(alloc: Global, sizes: ClusterSizes) -> Result<ClusterWorld, NoMemory>
        requires mirrored { 1 ≤ sizes.mirrors }
        requires few { sizes.mirrors ≤ MAX_MIRRORS }
        requires within { sizes.mirrors ≤ sizes.servers }
        requires servers { sizes.servers ≤ MAX_SERVERS }
        requires clients { sizes.clients ≤ MAX_NUMBER }
        ensures world { IfOk result (λ w. w.world ≡ new_cluster sizes.servers sizes.mirrors sizes.clients) }
        ensures fresh { IfOk result (λ w. w.spent ≡ None) }
    {
        Ok(ClusterWorld {
            stage: Stage::new(alloc, sizes)?,
            spent: None,
        })
    }

    /// The metadata server.
    pub fn mds(&self) -> &Mds
        ensures { result.now.mds ≡ self.now.world.machines.mds }
    {
        self.stage.machines.mds()
    }

    /// The data server of a number, where there is one.
    pub fn server(&self, number: u32) -> Option<&DataServer>
        ensures { option_copied result ≡ nth self.now.world.machines.servers number }
    {
        self.stage.machines.server(number)
    }

    /// The client of a number, where there is one.
    pub fn client(&self, number: u32) -> Option<&Client>
        ensures { option_map (λ c. c.now.client) result ≡ nth self.now.world.machines.clients number }
    {
        self.stage.machines.client(number)
    }

    /// The journal: the entries of all events that happened, in order.
    pub fn journal(&self) -> &[Entry]
        ensures is { result.now ≡ self.now.world.journal }
        ensures range { IsJournalInRange self.now.world.journal }
    {
        self.stage.journal.entries()
    }

    /// How many entries the journal has.
    pub fn count(&self) -> u64
        ensures { result ≡ length self.now.world.journal }
    {
        self.stage.journal.count()
    }

    /// Lets an event happen that is no flow, and adds its entries to the journal. At an error the journal is as before, and
    /// the world is spent. A flow is played by `deliver_next`, one delivery after the other; here nothing happens for it.
    pub fn step(&mut self, event: &ClusterEvent<'_>) -> Result<(), WorldFault>
        requires { IsOfScript (cluster_event event.now) }
        ensures meets { self.old.spent ≡ None → WorldBecomes self.old.world (behind (cluster_event event.now) self.old.world) result self.new }
        ensures spent { (fault : WorldFault) → self.old.spent ≡ Some fault → (result ≡ Err fault) × (self.new ≡ self.old) }
    {
        if let Some(fault) = self.spent {
            return Err(fault);
        }
        if let Err(fault) = self.stage.happen(event) {
            self.spent = Some(fault);
            return Err(fault);
        }
        Ok(())
    }

    /// The first packet that waits comes; `false` is that none waits, and nothing happened. At an error the journal is as
    /// before, and the world is spent.
    pub fn deliver_next(&mut self) -> Result<bool, WorldFault>
        ensures meets { self.old.spent ≡ None → Flows self.old.world (next_waiting (packets self.old.world)) result self.new }
        ensures spent { (fault : WorldFault) → self.old.spent ≡ Some fault → (result ≡ Err fault) × (self.new ≡ self.old) }
    {
        if let Some(fault) = self.spent {
            return Err(fault);
        }
        let Some(number) = self.stage.packets.next() else {
            return Ok(false);
        };
        if let Err(fault) = self.stage.deliver(number) {
            self.spent = Some(fault);
            return Err(fault);
        }
        Ok(true)
    }
}
