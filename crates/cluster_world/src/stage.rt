//! A world that is not spent.

ghost use Rattle.std.specs.Prelude.{◌≡◌, ◌+◌, ◌*◌, ◌<◌, ◌≤◌, ◌^◌, IfOk, OnOk, [], ◌∷◌, length};
ghost use Rattle.node_config.specs.declared.config.TheConstants.{MAX_SERVERS, MAX_MIRRORS, MAX_NUMBER};
ghost use Rattle.world_rule.specs.Sent.{noting, noting_all};
ghost use Rattle.world_rule.specs.ClusterWorlds.{new_cluster, entering};
ghost use Rattle.cluster_world.specs.WorldSteps.{IsNoted, StageBecomes, drafted, acted};

use crate::draft::Draft;
use cluster_machines::Machines;
use cluster_model::{Entry, NodeId, Outbox};
use cluster_script::ClusterSizes;
use ff_xdr::NoMemory;
use packet_table::Packets;
use std::alloc::Global;
use std::marker::Model;
use world_journal::{Journal, WorldFault};

/// The machines, the moment, the packets and the journal of a world that is not spent. After an error it is not to be used again.
#[derive(Drop)]
pub struct Stage {
    pub alloc: Global,
    pub machines: Machines,
    /// Of each client's start (RFC 8881, section 18.35).
    pub verifiers: Vec<u64>,
    /// In seconds.
    pub moment: u64,
    pub packets: Packets,
    /// How many packets were sent.
    pub sent: u64,
    pub journal: Journal,
}

impl Model for Stage {
    ghost use Rattle.cluster_world.specs.WorldSteps.{StageValue, KeepsBounds};

    ghost Value = { StageValue };

    ghost view = { λ s. record { world = record { machines = s.machines; verifiers = s.verifiers.items; now = s.moment; held = s.packets.held; sent = s.sent; journal = s.journal }; packets = s.packets } };

    ghost invariant = { λ s. KeepsBounds s.sent s.moment s.journal };
}

/// Notes what an entry says of packets, which stands at this place of the journal.
fn note(packets: &mut Packets, place: u64, entry: &Entry) -> Result<(), NoMemory>
    ensures { OnOk result (packets.new ≡ noting packets.old place entry.now) }
{
    match entry {
        Entry::Packet { from, to, .. } => packets.push(*from, *to, place),
        Entry::Delivered { number } => {
            packets.came(*number);
            Ok(())
        }
        _ => Ok(()),
    }
}

/// Notes what entries say of packets, which stand from this place of the journal on.
fn note_all(packets: &mut Packets, first: u64, entries: &[Entry]) -> Result<(), NoMemory>
    requires { first + length entries.now < 2 ^ 64 }
    ensures { OnOk result (packets.new ≡ noting_all packets.old first entries.now) }
{
    let mut place = first;
    for entry in entries {
        note(packets, place, entry)?;
        place += 1;
    }
    Ok(())
}

impl Stage {
    /// Before any event. Takes memory.
    pub fn new(alloc: Global, sizes: ClusterSizes) -> Result<Stage, NoMemory>
        requires mirrored { 1 ≤ sizes.mirrors }
        requires few { sizes.mirrors ≤ MAX_MIRRORS }
        requires within { sizes.mirrors ≤ sizes.servers }
        requires servers { sizes.servers ≤ MAX_SERVERS }
        requires clients { sizes.clients ≤ MAX_NUMBER }
        ensures world { IfOk result (λ s. s.world ≡ new_cluster sizes.servers sizes.mirrors sizes.clients) }
        ensures noted { IfOk result (λ s. IsNoted s) }
    {
        Ok(Stage {
            alloc,
            machines: Machines::new(alloc, sizes.servers, sizes.mirrors, sizes.clients)?,
            verifiers: vec![in alloc; 1; sizes.clients as usize]?,
            moment: 0,
            packets: Packets::new(alloc),
            sent: 0,
            journal: Journal::new(alloc),
        })
    }

    /// An event begins.
    pub fn draft(&self) -> Draft
        ensures { result ≡ record { entries = []; sent = self.now.world.sent; begun = length self.now.world.journal } }
    {
        Draft::new(self.alloc, self.journal.count(), self.sent)
    }

    /// Nothing happens.
    pub fn stay(&mut self) -> Result<(), WorldFault>
        requires { IsNoted self.old }
        ensures { StageBecomes self.old self.old.world result self.new }
    {
        // its invariant is known once a field is read
        let _sent = self.sent;
        Ok(())
    }

    /// An event ends: its entries stand in the journal, where the limits let them in, and it is this moment.
    pub fn enter_at(&mut self, draft: Draft, moment: u64) -> Result<(), WorldFault>
        requires noted { IsNoted self.old }
        requires begun { draft.begun ≡ length self.old.world.journal }
        requires early { moment ≤ 4294967296 * (length self.old.world.journal + length draft.entries) }
        ensures { StageBecomes self.old (drafted self.old.world moment draft) result self.new }
    {
        let (entries, sent) = draft.into_parts();
        note_all(&mut self.packets, self.journal.count(), &entries)?;
        self.journal.add(entries)?;
        self.sent = sent;
        self.moment = moment;
        Ok(())
    }

    /// An event ends in the moment in which it began.
    pub fn enter(&mut self, draft: Draft) -> Result<(), WorldFault>
        requires noted { IsNoted self.old }
        requires begun { draft.begun ≡ length self.old.world.journal }
        ensures { StageBecomes self.old (drafted self.old.world self.old.world.now draft) result self.new }
    {
        let moment = self.moment;
        self.enter_at(draft, moment)
    }

    /// One entry is the whole event.
    pub fn enter_alone(&mut self, entry: Entry) -> Result<(), WorldFault>
        requires { IsNoted self.old }
        ensures { StageBecomes self.old (entering (entry ∷ []) self.old.world) result self.new }
    {
        let mut draft = self.draft();
        draft.enter(entry)?;
        self.enter(draft)
    }

    /// A machine's part is the whole event.
    pub fn act(&mut self, node: NodeId, out: Outbox) -> Result<(), WorldFault>
        requires { IsNoted self.old }
        ensures { StageBecomes self.old (acted node out.entries.items out.sends.items self.old.world) result self.new }
    {
        let mut draft = self.draft();
        draft.act(node, out)?;
        self.enter(draft)
    }
}
