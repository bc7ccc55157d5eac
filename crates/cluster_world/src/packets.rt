//! Packets that come, and packets that are held.

ghost use Rattle.std.specs.Prelude.{◌≡◌};
ghost use Rattle.cluster_model.specs.Event.{Hold, Pass};
ghost use Rattle.packet_table.specs.Packets.{number_between};
ghost use Rattle.world_rule.specs.ClusterWorlds.{packets, delivering, delivering_some, behind};
ghost use Rattle.world_rule.specs.Sent.{bytes_at_place};
ghost use Rattle.cluster_world.specs.WorldSteps.{IsNoted, StageBecomes};

use crate::stage::Stage;
use cluster_model::{Entry, NodeId, Outbox};
use world_journal::WorldFault;

/// The bytes of the packet that stands at a place of the journal.
fn bytes_at(journal: &[Entry], place: u64) -> &[u8]
    ensures { result.now ≡ bytes_at_place journal.now place }
{
    match journal.get(place as usize) {
        Some(Entry::Packet { bytes, .. }) => bytes.bytes(),
        _ => b"",
    }
}

impl Stage {
    /// The packet of a number comes, for the first time or again; nothing happens where none has it.
    pub fn deliver(&mut self, number: u64) -> Result<(), WorldFault>
        requires { IsNoted self.old }
        ensures { StageBecomes self.old (delivering number self.old.world) result self.new }
    {
        let Some(note) = self.packets.get(number) else {
            return Ok(());
        };
        let mut draft = self.draft();
        draft.enter(Entry::Delivered { number })?;
        let mut out = Outbox::new(self.alloc);
        let message = bytes_at(self.journal.entries(), note.place);
        self.machines
            .receive(note.from, note.to, message, self.moment, &mut out)?;
        draft.act(note.to, out)?;
        self.enter(draft)
    }

    /// The packet of this place, from 1, among those from one machine to another comes.
    pub fn deliver_between(
        &mut self,
        from: NodeId,
        to: NodeId,
        place: u32,
    ) -> Result<(), WorldFault>
        requires { IsNoted self.old }
        ensures { StageBecomes self.old (delivering_some (number_between (packets self.old.world) from to place) self.old.world) result self.new }
    {
        match self.packets.between(from, to, u64::from(place)) {
            Some(number) => self.deliver(number),
            None => Ok(()),
        }
    }

    /// Packets from one machine to another are held.
    pub fn hold(&mut self, from: NodeId, to: NodeId) -> Result<(), WorldFault>
        requires { IsNoted self.old }
        ensures { StageBecomes self.old (behind (Hold from to) self.old.world) result self.new }
    {
        self.packets.hold(from, to)?;
        self.enter_alone(Entry::Hold { from, to })
    }

    /// They are held no longer.
    pub fn pass(&mut self, from: NodeId, to: NodeId) -> Result<(), WorldFault>
        requires { IsNoted self.old }
        ensures { StageBecomes self.old (behind (Pass from to) self.old.world) result self.new }
    {
        self.packets.pass(from, to);
        self.enter_alone(Entry::Pass { from, to })
    }
}
