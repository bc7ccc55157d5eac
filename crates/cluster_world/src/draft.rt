//! The entries of an event, before they stand in the journal.

ghost use Rattle.std.specs.Prelude.{◌≡◌, ◌+◌, ◌≤◌, ◌<◌, ◌++◌, ◌∷◌, [], ◌↔◌, length, OnOk, IsTrue};
ghost use Rattle.world_journal.specs.declared.journal.TheConstants.{MAX_ENTRIES};
ghost use Rattle.world_journal.specs.SentPackets.{packets_of};
ghost use Rattle.cluster_world.specs.Drafts.{FitsBehind, PassesLimit, with_entry, with_act};

use cluster_model::{Entry, NodeId, Outbox};
use ff_xdr::{Data, NoMemory};
use std::alloc::Global;
use std::marker::Model;
use world_journal::{MAX_ENTRIES, WorldFault, push_packets};

/// The entries of an event so far, which fit behind the journal by their number, and how many packets were sent with them.
#[derive(Drop)]
pub struct Draft {
    entries: Vec<Entry>,
    sent: u64,
    /// How many entries the journal has.
    begun: u64,
}

impl Model for Draft {
    ghost use Rattle.cluster_world.specs.Drafts.{DraftValue, FitsBehind};

    ghost Value = { DraftValue };

    ghost view = { λ d. record { entries = d.entries.items; sent = d.sent; begun = d.begun } };

    ghost invariant = { λ d. FitsBehind d.begun d.sent d.entries.items };
}

impl Draft {
    /// No entries, behind a journal of so many, in which so many packets stand. Takes no memory.
    pub fn new(alloc: Global, begun: u64, sent: u64) -> Draft
        requires few { begun ≤ MAX_ENTRIES }
        requires sent { sent ≤ begun }
        ensures { result ≡ record { entries = []; sent = sent; begun = begun } }
    {
        Draft {
            entries: Vec::new(alloc),
            sent,
            begun,
        }
    }

    /// Its entries, and how many packets were sent with them.
    pub fn into_parts(self) -> (Vec<Entry>, u64)
        ensures { (result.0.items ≡ self.entries) × (result.1 ≡ self.sent) }
    {
        (self.entries, self.sent)
    }

    /// So many entries and packets more fit behind the journal.
    fn has_room(&self, entries: usize, packets: usize) -> bool
        ensures { IsTrue result ↔ (self.now.begun + length self.now.entries + (entries + packets) ≤ MAX_ENTRIES) }
    {
        let left = MAX_ENTRIES - self.begun - self.entries.len() as u64;
        if entries as u64 > left {
            return false;
        }
        packets as u64 <= left - entries as u64
    }

    /// The entry stands behind the others.
    fn put(&mut self, entry: Entry) -> Result<(), NoMemory>
        requires { self.old.begun + length self.old.entries + 1 ≤ MAX_ENTRIES }
        ensures { OnOk result (self.new ≡ with_entry entry self.old) }
    {
        self.entries.push(entry)?;
        Ok(())
    }

    /// A machine's entries stand behind the others, and then a packet for each record that it sends.
    fn put_act(
        &mut self,
        node: NodeId,
        mut entries: Vec<Entry>,
        sends: Vec<(NodeId, Data)>,
    ) -> Result<(), NoMemory>
        requires { self.old.begun + length self.old.entries + (length entries.items + length sends.items) ≤ MAX_ENTRIES }
        ensures { OnOk result (self.new ≡ with_act node entries.items sends.items self.old) }
    {
        let sent = self.sent + sends.len() as u64;
        push_packets(&mut entries, node, self.sent, sends)?;
        self.entries.append(&mut entries)?;
        self.sent = sent;
        Ok(())
    }

    /// Something happened.
    pub fn enter(&mut self, entry: Entry) -> Result<(), WorldFault>
        ensures ok { OnOk result (self.new ≡ with_entry entry self.old) }
        ensures limit { PassesLimit result self.old (entry ∷ []) [] }
    {
        if !self.has_room(1, 0) {
            return Err(WorldFault::Limit {
                entries: self.begun,
            });
        }
        self.put(entry)?;
        Ok(())
    }

    /// A machine did its part: its entries come first, and then a packet for each record that it sends.
    pub fn act(&mut self, node: NodeId, out: Outbox) -> Result<(), WorldFault>
        ensures ok { OnOk result (self.new ≡ with_act node out.entries.items out.sends.items self.old) }
        ensures limit { PassesLimit result self.old out.entries.items out.sends.items }
    {
        let Outbox { entries, sends } = out;
        if !self.has_room(entries.len(), sends.len()) {
            return Err(WorldFault::Limit {
                entries: self.begun,
            });
        }
        self.put_act(node, entries, sends)?;
        Ok(())
    }
}
