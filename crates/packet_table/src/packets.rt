//! The packets that were sent, and what waits.

ghost use Rattle.std.specs.Prelude.{◌≡◌, length, OnOk, OnErr};
ghost use Rattle.packet_table.specs.Packets.{no_packets, packet_numbered, number_between, is_held, next_waiting, with_packet, after_coming, after_hold, after_pass};

use crate::key::pair_key;
use crate::line::PacketLine;
use crate::lines::{front_of, number_at, put_number, set_front};
use crate::note::{PacketNote, mark_came, numbered};
use crate::waiting::{first_waiting, is_pair_among, low_before};
use cluster_model::NodeId;
use ff_xdr::NoMemory;
use indexmap::IndexMap;
use std::alloc::Global;
use std::marker::Model;

/// The packets that machines have sent, by their numbers from 1: which came, and between which machines they are held. The
/// first that waits is found without going over those that came.
#[derive(Drop)]
pub struct Packets {
    notes: Vec<PacketNote>,
    // the numbers of the packets from one machine to another
    lines: IndexMap<u128, PacketLine>,
    held: Vec<(NodeId, NodeId)>,
    // of so many of the first packets none waits
    low: usize,
}

impl Model for Packets {
    ghost use Rattle.packet_table.specs.Packets.{PacketsValue};
    ghost use Rattle.packet_table.specs.PacketLines.{AreFound};

    ghost Value = { PacketsValue };

    ghost view = { λ p. record { notes = p.notes.items; held = p.held.items } };

    ghost invariant = { λ p. AreFound p.notes.items p.held.items p.lines.entries p.low };
}

impl Packets {
    /// None; takes no memory.
    pub fn new(alloc: Global) -> Packets
        ensures { result ≡ no_packets }
    {
        Packets {
            notes: Vec::new(alloc),
            lines: IndexMap::new(alloc),
            held: Vec::new(alloc),
            low: 0,
        }
    }

    /// How many there are.
    pub fn count(&self) -> u64
        ensures { result ≡ length self.now.notes }
    {
        self.notes.len() as u64
    }

    /// The packet of a number, from 1; `None` where so many were not sent.
    pub fn get(&self, number: u64) -> Option<PacketNote>
        ensures { result ≡ packet_numbered self.now number }
    {
        numbered(number, self.notes.as_slice())
    }

    /// The number of the nth packet, from 1, from one machine to another; `None` where so many were not sent. It costs the same
    /// whatever was sent.
    pub fn between(&self, from: NodeId, to: NodeId, n: u64) -> Option<u64>
        ensures { result ≡ number_between self.now from to n }
    {
        let place = n.checked_sub(1)?;
        number_at(&self.lines, pair_key(from, to), place as usize)
    }

    /// Packets from one machine to another are held. It costs by how many pairs are.
    pub fn is_held(&self, from: NodeId, to: NodeId) -> bool
        ensures { result ≡ is_held self.now.held from to }
    {
        is_pair_among(self.held.as_slice(), from, to)
    }

    /// The number of the first packet that waits. Packets are gone over once, but for what `pass` asks; each that has not come costs
    /// by how many pairs are held.
    pub fn next(&mut self) -> Option<u64>
        ensures next { result ≡ next_waiting self.old }
        ensures same { self.new ≡ self.old }
    {
        self.low = first_waiting(self.notes.as_slice(), self.held.as_slice(), self.low);
        if self.low >= self.notes.len() {
            return None;
        }
        Some(self.low as u64 + 1)
    }

    /// A packet is sent, which stands at this place of the journal. Takes memory; where it is wanted nothing has changed.
    pub fn push(&mut self, from: NodeId, to: NodeId, place: u64) -> Result<(), NoMemory>
        ensures sent { OnOk result (self.new ≡ with_packet from to place self.old) }
        ensures same { OnErr result (self.new ≡ self.old) }
    {
        self.notes.reserve(1)?;
        let number = self.notes.len() as u64 + 1;
        put_number(&mut self.lines, pair_key(from, to), number)?;
        // there is room for it, so it does not fail
        self.notes.push(PacketNote {
            from,
            to,
            place,
            came: false,
        })?;
        Ok(())
    }

    /// The packet of this number came, for the first time or again; where there is none nothing changes.
    pub fn came(&mut self, number: u64)
        ensures { self.new ≡ after_coming number self.old }
    {
        mark_came(number, &mut self.notes);
    }

    /// Packets from one machine to another are held from now on. It costs by how many pairs are. Takes memory; where it is wanted
    /// nothing has changed.
    pub fn hold(&mut self, from: NodeId, to: NodeId) -> Result<(), NoMemory>
        ensures held { OnOk result (self.new ≡ after_hold from to self.old) }
        ensures same { OnErr result (self.new ≡ self.old) }
    {
        if is_pair_among(self.held.as_slice(), from, to) {
            return Ok(());
        }
        self.held.push((from, to))?;
        Ok(())
    }

    /// Packets from one machine to another are held no longer. It costs by how many pairs are held, and by those of the packets that
    /// came, of which each is looked at once for all calls.
    pub fn pass(&mut self, from: NodeId, to: NodeId)
        ensures { self.new ≡ after_pass from to self.old }
    {
        let key = pair_key(from, to);
        let front = front_of(&self.lines, key, self.notes.as_slice());
        let first = number_at(&self.lines, key, front);
        set_front(&mut self.lines, key, front);
        self.held.retain(|pair| !(pair.0 == from && pair.1 == to));
        self.low = low_before(self.low, first);
    }
}
