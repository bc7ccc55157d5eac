//! The packets from one machine to another.

ghost use Rattle.std.specs.Prelude.{◌≡◌, ◌++◌, ◌∷◌, [], slice_get, IfOk, OnOk, OnErr};
ghost use Rattle.packet_table.specs.PacketLines.{IsKnown, MovesFront};

use crate::note::{PacketNote, has_come};
use ff_xdr::NoMemory;
use std::alloc::Global;
use std::marker::Model;

/// The numbers of the packets from one machine to another, in order.
#[derive(Drop)]
pub struct PacketLine {
    numbers: Vec<u64>,
    // how many of the first of them are known to have come, so that they are not looked at again
    front: usize,
}

impl Model for PacketLine {
    ghost use Rattle.packet_table.specs.PacketLines.{PairLine};

    ghost Value = { PairLine };

    ghost view = { λ l. record { numbers = l.numbers.items; front = l.front } };
}

impl PacketLine {
    /// This number alone.
    ///
    /// # Errors
    /// `NoMemory` where memory is wanted.
    pub fn of(number: u64, alloc: Global) -> Result<PacketLine, NoMemory>
        ensures { IfOk result (λ line. line ≡ record { numbers = number ∷ []; front = 0 }) }
    {
        let mut numbers = Vec::new(alloc);
        numbers.push(number)?;
        Ok(PacketLine { numbers, front: 0 })
    }

    /// One more number, behind the others.
    ///
    /// # Errors
    /// `NoMemory` where memory is wanted. Nothing has changed then.
    pub fn push(&mut self, number: u64) -> Result<(), NoMemory>
        ensures ok { OnOk result (self.new ≡ record { numbers = self.old.numbers ++ number ∷ []; front = self.old.front }) }
        ensures err { OnErr result (self.new ≡ self.old) }
    {
        self.numbers.push(number)?;
        Ok(())
    }

    /// The number at a place, from 0.
    pub fn get(&self, place: usize) -> Option<u64>
        ensures { result ≡ slice_get self.now.numbers place }
    {
        self.numbers.get(place).copied()
    }

    /// The place of the first packet that has not come, or behind all. It costs by those that came behind the front.
    pub fn front_among(&self, notes: &[PacketNote]) -> usize
        requires { IsKnown notes.now self.now.numbers self.now.front }
        ensures { MovesFront notes.now self.now.numbers self.now.front result }
    {
        let mut front = self.front;
        while front < self.numbers.len() {
            if !has_come(self.numbers[front], notes) {
                return front;
            }
            front += 1;
        }
        front
    }

    /// So many of the first are known to have come.
    pub fn set_front(&mut self, front: usize)
        ensures { self.new ≡ record { numbers = self.old.numbers; front = front } }
    {
        self.front = front;
    }
}
