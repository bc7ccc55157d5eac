//! One slot of a session.

ghost use Rattle.std.specs.Prelude.{◌≡◌, IfOk};
ghost use Rattle.nfs4_session.specs.Slots.{new_slot, slot_answer, slot_begun, slot_finished};
ghost use Rattle.nfs4_session.specs.Turns.{turn_of, kept_bytes};

use crate::next_sequence;
use ff_xdr::NoMemory;
use nfs4_types::Stat4;
use std::alloc::Global;
use std::marker::Model;

/// The most bytes of a reply that is kept.
pub const MAX_KEPT: usize = 32_768;

/// What a slot has of its last request.
#[derive(Clone, Copy, Debug, PartialEq, Eq)]
enum Stage {
    NoRequest,
    InProgress,
    /// The reply is in the slot's room.
    Cached,
    /// The reply was too long.
    Uncached,
}

/// What a request comes to at a slot.
#[derive(Clone, Copy, Debug, PartialEq, Eq)]
pub enum Turn {
    TakesEffect,
    /// The slot's kept reply answers it.
    Repeats,
    Refuses(Stat4),
}

/// A slot, with room for a reply that was taken when it was made (RFC 8881, section 2.10.6).
#[derive(Drop)]
pub struct Slot {
    last: u32,
    stage: Stage,
    room: Vec<u8>,
}

impl Model for Slot {
    ghost use Rattle.std.specs.Prelude.{◌≤◌, vec_capacity};
    ghost use Rattle.nfs4_session.specs.Slots.{SlotState};
    ghost use Rattle.nfs4_session.specs.declared.slot.TheConstants.{MAX_KEPT};

    ghost Value = { SlotState };

    ghost use Rattle.nfs4_session.specs.Turns.{reply_in};

    ghost view = { λ s. record { last = s.last; reply = reply_in s.stage s.room.items } };

    ghost invariant = { λ s. MAX_KEPT ≤ vec_capacity s.room };
}

impl Slot {
    /// A slot on which no request came. The room for a reply is taken now.
    pub fn new(alloc: Global) -> Result<Slot, NoMemory>
        ensures { IfOk result (λ s. s ≡ new_slot) }
    {
        let room = Vec::with_capacity(alloc, MAX_KEPT)?;
        Ok(Slot {
            last: 0,
            stage: Stage::NoRequest,
            room,
        })
    }

    /// What a request of this number comes to.
    pub fn turn(&self, number: u32) -> Turn
        ensures { result ≡ turn_of (slot_answer self.now number) }
    {
        if number == self.last {
            return match self.stage {
                Stage::NoRequest => Turn::Refuses(Stat4::SeqMisordered),
                Stage::InProgress => Turn::Refuses(Stat4::Delay),
                Stage::Cached => Turn::Repeats,
                Stage::Uncached => Turn::Refuses(Stat4::RetryUncachedRep),
            };
        }
        if number == next_sequence(self.last) && self.stage != Stage::InProgress {
            Turn::TakesEffect
        } else {
            Turn::Refuses(Stat4::SeqMisordered)
        }
    }

    /// The bytes of the kept reply, or none.
    pub fn kept(&self) -> &[u8]
        ensures { result.now ≡ kept_bytes self.now.reply }
    {
        match self.stage {
            Stage::Cached => &self.room,
            _ => &[],
        }
    }

    /// A request of this number is in progress.
    pub fn begin(&mut self, number: u32)
        ensures { self.new ≡ slot_begun number }
    {
        self.last = number;
        self.stage = Stage::InProgress;
    }

    /// The request of this number is done, where it is in progress. Its reply is copied into the room.
    pub fn finish(&mut self, number: u32, reply: &[u8])
        ensures { self.new ≡ slot_finished number reply.now self.old }
    {
        if self.last != number || self.stage != Stage::InProgress {
            return;
        }
        if reply.len() > MAX_KEPT {
            self.stage = Stage::Uncached;
            return;
        }
        self.room.clear();
        // the room is as large as any reply that comes here, so it does not fail
        self.stage = match self.room.extend_from_slice(reply) {
            Ok(()) => Stage::Cached,
            Err(_) => Stage::Uncached,
        };
    }
}
