//! One session of a client.

ghost use Rattle.std.specs.Prelude.{◌≡◌, IfOk, replicate, slice_get};
ghost use Rattle.nfs4_session.specs.Slots.{new_slot, slot_begun, slot_finished};
ghost use Rattle.nfs4_session.specs.Clients.{new_session};
ghost use Rattle.nfs4_session.specs.Requests.{answer_by_slot, change_at, change_slot};
ghost use Rattle.nfs4_session.specs.Bindings.{bound_to, called_back, back_call};
ghost use Rattle.nfs4_session.specs.Turns.{turn_of, kept_at_slot};

use crate::slot::{Slot, Turn};
use crate::{BackCall, next_sequence};
use cluster_model::NodeId;
use ff_xdr::NoMemory;
use nfs4_types::{SessionId, Stat4};
use std::alloc::Global;
use std::marker::Model;

/// How many slots a session has.
pub const SLOTS: usize = 8;

/// A session: its slots, and where its callbacks go (RFC 8881, section 2.10).
#[derive(Drop)]
pub struct Session {
    number: u64,
    slots: Vec<Slot>,
    node: NodeId,
    program: u32,
    callback: u32,
}

impl Model for Session {
    ghost use Rattle.nfs4_session.specs.Clients.{SessionState};

    ghost Value = { SessionState };

    ghost view = { λ s. record { number = s.number; slots = s.slots.items; node = s.node; program = s.program; callback = s.callback } };
}

/// The slots of a new session.
fn new_slots(alloc: Global) -> Result<Vec<Slot>, NoMemory>
    ensures { IfOk result (λ slots. slots.items ≡ replicate SLOTS new_slot) }
{
    let mut slots = Vec::with_capacity(alloc, SLOTS)?;
    for _ in 0..SLOTS {
        slots.push(Slot::new(alloc)?)?;
    }
    Ok(slots)
}

/// What a request of this number comes to on a slot.
fn turn_on(slots: &[Slot], slot: u32, number: u32) -> Turn
    ensures { result ≡ turn_of (answer_by_slot number (slice_get slots.now slot)) }
{
    match slots.get(slot as usize) {
        Some(slot) => slot.turn(number),
        None => Turn::Refuses(Stat4::BadSlot),
    }
}

/// The bytes of a slot's kept reply, or none.
fn kept_on(slots: &[Slot], slot: u32) -> &[u8]
    ensures { result.now ≡ kept_at_slot (slice_get slots.now slot) }
{
    match slots.get(slot as usize) {
        Some(slot) => slot.kept(),
        None => &[],
    }
}

/// A request of this number is in progress on a slot.
fn begin_on(slots: &mut [Slot], slot: u32, number: u32)
    ensures { slots.new ≡ change_at slot (λ s. slot_begun number) slots.old (slice_get slots.old slot) }
{
    let place = slot as usize;
    if place < slots.len() {
        let slot = &mut slots[place];
        slot.begin(number);
    }
}

/// The request of this number is done on a slot.
fn finish_on(slots: &mut [Slot], slot: u32, number: u32, reply: &[u8])
    ensures { slots.new ≡ change_at slot (slot_finished number reply.now) slots.old (slice_get slots.old slot) }
{
    let place = slot as usize;
    if place < slots.len() {
        let slot = &mut slots[place];
        slot.finish(number, reply);
    }
}

impl Session {
    /// A new session of eight slots. The room of its kept replies is taken now.
    pub fn new(alloc: Global, number: u64, node: NodeId, program: u32) -> Result<Session, NoMemory>
        ensures { IfOk result (λ s. s ≡ new_session number node program) }
    {
        let slots = new_slots(alloc)?;
        Ok(Session {
            number,
            slots,
            node,
            program,
            callback: 0,
        })
    }

    /// Its number over all clients.
    pub fn number(&self) -> u64
        ensures { result ≡ self.now.number }
    {
        self.number
    }

    /// What a request of this number comes to on a slot.
    pub fn turn(&self, slot: u32, number: u32) -> Turn
        ensures { result ≡ turn_of (answer_by_slot number (slice_get self.now.slots slot)) }
    {
        turn_on(&self.slots, slot, number)
    }

    /// The bytes of a slot's kept reply, or none.
    pub fn kept(&self, slot: u32) -> &[u8]
        ensures { result.now ≡ kept_at_slot (slice_get self.now.slots slot) }
    {
        kept_on(&self.slots, slot)
    }

    /// A request of this number is in progress on a slot.
    pub fn begin(&mut self, slot: u32, number: u32)
        ensures { self.new ≡ change_slot slot (λ s. slot_begun number) self.old }
    {
        begin_on(&mut self.slots, slot, number);
    }

    /// The request of this number is done on a slot.
    pub fn finish(&mut self, slot: u32, number: u32, reply: &[u8])
        ensures { self.new ≡ change_slot slot (slot_finished number reply.now) self.old }
    {
        finish_on(&mut self.slots, slot, number, reply);
    }

    /// Its last record came from this node.
    pub fn bind(&mut self, node: NodeId)
        ensures { self.new ≡ bound_to node self.old }
    {
        self.node = node;
    }

    /// The next callback to its client, whose number is used by `call_back`.
    pub fn back_call(&self, session: SessionId) -> BackCall
        ensures { result ≡ record { session = session; node = self.now.node; program = self.now.program; sequence = (called_back self.now).callback } }
    {
        BackCall {
            session,
            node: self.node,
            program: self.program,
            sequence: next_sequence(self.callback),
        }
    }

    /// A callback has the next number.
    pub fn call_back(&mut self)
        ensures { self.new ≡ called_back self.old }
    {
        self.callback = next_sequence(self.callback);
    }
}
