//! Places in a list that are found by the numbers of calls.

ghost use Rattle.std.specs.Prelude.{◌≡◌, ◌≢◌, ◌<◌, ◌≤◌, ◌+◌, ℕ, [], true, length, slice_get, Some, OnOk, OnErr, IfSome};
ghost use Rattle.served_files.specs.Tickets.{FindsTicket, KeepsFound};

use ff_xdr::NoMemory;
use std::alloc::Global;
use std::collections::BTreeMap;
use std::marker::Model;

/// A ticket for each place of a list, and the ticket at each number that was entered for a place. A place keeps its ticket where others
/// before it leave, so that a number is found in the logarithm of how many there are.
#[derive(Drop)]
pub struct Tickets {
    /// Each place has a ticket, and each number that was entered stands for its place. It is so no more once a number was entered
    /// twice, or tickets are used up, until all is cleared.
    is_whole: bool,
    tickets: Vec<u64>,
    out: BTreeMap<u32, u64>,
}

impl Model for Tickets {
    ghost use Rattle.served_files.specs.Tickets.{TicketsValue, AreRisingNumbers};

    ghost Value = { TicketsValue };

    ghost view = { λ t. record { is_whole = t.is_whole; tickets = t.tickets.items; out = t.out.entries } };

    ghost invariant = { λ t. AreRisingNumbers t.tickets.items };
}

impl Tickets {
    /// No places. Takes no memory.
    pub fn new(alloc: Global) -> Tickets
        ensures { result.tickets ≡ [] }
    {
        Tickets {
            is_whole: true,
            tickets: Vec::new(alloc),
            out: BTreeMap::new(alloc),
        }
    }

    /// What it finds is all that was entered.
    pub fn is_whole(&self) -> bool
        ensures { result ≡ self.now.is_whole }
    {
        self.is_whole
    }

    /// The place for which a number was entered. It costs the logarithm of how many places and numbers there are.
    pub fn find(&self, xid: u32) -> Option<usize>
        ensures found { (place : ℕ) → FindsTicket self.now xid place → result ≡ Some place }
        ensures within { IfSome result (λ place. place < length self.now.tickets) }
    {
        let ticket = *self.out.get(&xid)?;
        self.tickets.binary_search(&ticket).ok()
    }

    /// One more place, behind the others. Takes memory; where it is wanted nothing has changed.
    pub fn push(&mut self) -> Result<(), NoMemory>
        ensures was { self.new.is_whole ≡ true → self.old.is_whole ≡ true }
        ensures kept { KeepsFound self.old self.new }
        ensures ok { OnOk result (self.new.is_whole ≡ true → length self.new.tickets ≡ length self.old.tickets + 1) }
        ensures err { OnErr result (length self.new.tickets ≡ length self.old.tickets) }
    {
        if !self.is_whole {
            return Ok(());
        }
        let Some(ticket) = self.next_ticket() else {
            self.is_whole = false;
            return Ok(());
        };
        self.tickets.push(ticket)?;
        Ok(())
    }

    /// One that is above all others.
    fn next_ticket(&self) -> Option<u64>
        ensures { IfSome result (λ ticket. (place t : ℕ) → slice_get self.now.tickets place ≡ Some t → t < ticket) }
    {
        match self.tickets.last() {
            Some(last) => last.checked_add(1),
            None => Some(0),
        }
    }

    /// A number is entered for a place. Takes memory; where it is wanted nothing has changed.
    pub fn enter(&mut self, place: usize, xid: u32) -> Result<(), NoMemory>
        requires { self.old.is_whole ≡ true → place < length self.old.tickets }
        ensures was { self.new.is_whole ≡ true → self.old.is_whole ≡ true }
        ensures found { OnOk result (self.new.is_whole ≡ true → FindsTicket self.new xid place) }
        ensures kept { KeepsFound self.old self.new }
        ensures len { length self.new.tickets ≡ length self.old.tickets }
    {
        if !self.is_whole {
            return Ok(());
        }
        if self.out.contains_key(&xid) {
            self.is_whole = false;
            return Ok(());
        }
        self.out.insert(xid, self.tickets[place])?;
        Ok(())
    }

    /// A number stands for no place any more.
    pub fn forget(&mut self, xid: u32)
        ensures was { self.new.is_whole ≡ self.old.is_whole }
        ensures others { (x place : ℕ) → x ≢ xid → FindsTicket self.old x place → FindsTicket self.new x place }
        ensures len { length self.new.tickets ≡ length self.old.tickets }
    {
        self.out.remove(&xid);
    }

    /// No number stands for a place any more.
    pub fn forget_all(&mut self)
        ensures was { self.new.is_whole ≡ self.old.is_whole }
        ensures len { length self.new.tickets ≡ length self.old.tickets }
    {
        self.out.clear();
    }

    /// A place leaves, and those behind it move down by one.
    pub fn remove(&mut self, place: usize)
        requires { self.old.is_whole ≡ true → place < length self.old.tickets }
        ensures was { self.new.is_whole ≡ self.old.is_whole }
        ensures before { self.new.is_whole ≡ true → (xid p : ℕ) → p < place → FindsTicket self.old xid p → FindsTicket self.new xid p }
        ensures behind { self.new.is_whole ≡ true → (xid p : ℕ) → place ≤ p → FindsTicket self.old xid (p + 1) → FindsTicket self.new xid p }
        ensures len { self.new.is_whole ≡ true → length self.new.tickets + 1 ≡ length self.old.tickets }
    {
        if self.is_whole {
            self.tickets.remove(place);
        }
    }

    /// No places are left, and no numbers. Takes no memory.
    pub fn clear(&mut self)
        ensures { self.new.tickets ≡ [] }
    {
        self.is_whole = true;
        self.tickets.clear();
        self.out.clear();
    }
}
