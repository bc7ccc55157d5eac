//! Rounds over the connections.

ghost use Rattle.std.specs.Prelude.{◌≡◌, ◌+◌, ◌^◌, ◌<◌, ◌≤◌, nat_le, ℕ, List, [], ◌∷◌, map, length, Some};
ghost use Rattle.record_server.specs.Server.{AreRising, AcceptsAll, AcceptsOne, Asks, BeginsRound, EndsRound, FindsRoom, GivesRecord, GoesRound, HandsOrNot, LeavesOrNot, VisitsNext, Admits, MakesRoom, resumed_by, swept};
ghost use Rattle.std.specs.Bool.{OnTrue};
ghost use Rattle.record_link.specs.Peers.{resumed};

use crate::network::{Network, Refused};
use crate::peers::{find, longest_spare};
use crate::server::{MAX_CONNECTIONS, MOST_HANDED, RecordServer};
use ff_xdr::{Data, NoMemory};
use record_link::{Peer, Stream};
use rpc_record::Failed;

/// The most connections that are accepted in a round.
const MOST_ACCEPTED: u32 = 64;

/// So many milliseconds are waited at once for something to be done.
pub(crate) const WAIT: u64 = 100;

/// With so many bytes to go on a connection they are written before another record of it is handed out.
const MUCH: usize = 65_536;

/// None is accepted for so many milliseconds where the system has no room for one.
const PAUSE: u64 = 100;

/// Has each tried again.
fn resume_each<S: Stream>(peers: &mut [Peer<S>])
    ensures { peers.new ≡ map resumed peers.old }
{
    for peer in peers {
        peer.resume();
    }
}

/// Has the one of this number tried again, where there is one, in a list in which the numbers rise.
fn resume_one<S: Stream>(peers: &mut [Peer<S>], number: u32)
    requires { AreRising 0 peers.old }
    ensures { peers.new ≡ map (resumed_by (number ∷ [])) peers.old }
{
    if let Some(place) = find(peers, number) {
        peers[place].resume();
    }
}

/// Has those of these numbers tried again, and where there are none each, in a list in which the numbers
/// rise.
fn resume_reported<S: Stream>(peers: &mut [Peer<S>], reports: &[u32])
    requires { AreRising 0 peers.old }
    ensures { peers.new ≡ map (resumed_by reports.now) peers.old }
{
    let Some((first, rest)) = reports.split_first() else {
        resume_each(peers);
        return;
    };
    resume_one(peers, *first);
    for number in rest {
        resume_one(peers, *number);
    }
}

/// A connection may wait to be accepted: 0 is among what was reported, or nothing was.
fn may_wait(reports: &[u32]) -> bool {
    reports.is_empty() || reports.contains(&0)
}

/// How long is waited for something to be done: not at all where something came, and no longer than until a
/// time.
fn longest_wait(is_busy: bool, until: u64, now: u64) -> u64 {
    if is_busy {
        return 0;
    }
    WAIT.min(until.saturating_sub(now))
}

/// Whether there is room for another connection, and at which place one is to be closed for it.
fn room_in<S: Stream>(peers: &[Peer<S>], time: u64) -> Option<Option<usize>>
    ensures { FindsRoom time peers.now result }
{
    if peers.len() < MAX_CONNECTIONS {
        return Some(None);
    }
    match longest_spare(peers, time) {
        Some(place) => Some(Some(place)),
        None => None,
    }
}

impl<N: Network + Drop> RecordServer<N> {
    /// The next record, and the number of the connection that it came on, from 1. It waits until one comes, or
    /// until a time, in milliseconds, is over and a whole round since gave none: then it answers `None`, as
    /// it does where no connection is left and all numbers are given. `Failed::Fault` is that no connection
    /// can be accepted or waited for.
    pub fn next(&mut self, until: u64) -> Result<Option<(u32, Data)>, Failed>
        ensures { GivesRecord until self.old result self.new }
    {
        for _round in 0..u64::MAX {
            match self.end_round() {
                Ok(Some(handed)) => return Ok(Some(handed)),
                Ok(None) => {}
                Err(NoMemory) => return Err(Failed::NoMemory),
            }
            if self.time >= until {
                return Ok(None);
            }
            if self.is_spent() {
                return Ok(None);
            }
            self.begin_round(until)?;
        }
        Ok(None)
    }

    /// Goes through the rest of a round, up to the next record. Where much is to go on the connection that was
    /// visited last, it is written first, so that large answers do not pile up.
    fn end_round(&mut self) -> Result<Option<(u32, Data)>, NoMemory>
        ensures { EndsRound self.old result self.new }
    {
        self.spill();
        self.end_rest()
    }

    /// Writes what is to go on the connection that was visited last, where that is much.
    fn spill(&mut self)
        ensures { GoesRound self.old self.new }
    {
        if self.place == 0 {
            return;
        }
        let place = self.place - 1;
        if self.peers[place].waiting() >= MUCH {
            self.leave();
        }
    }

    /// Goes through the rest of a round, up to the next record.
    fn end_rest(&mut self) -> Result<Option<(u32, Data)>, NoMemory>
        ensures { EndsRound self.old result self.new }
    {
        while !self.is_behind() {
            if let Some(handed) = self.hand_out()? {
                return Ok(Some(handed));
            }
            self.leave();
            self.visit()?;
        }
        if let Some(handed) = self.hand_out()? {
            return Ok(Some(handed));
        }
        self.leave();
        Ok(None)
    }

    /// Every connection was visited in this round.
    fn is_behind(&self) -> bool
        ensures { result ≡ nat_le (length self.now.peers) self.now.place }
    {
        self.peers.len() <= self.place
    }

    /// Hands out a record of the connection that was visited last, where one is whole and not too many were
    /// handed out.
    fn hand_out(&mut self) -> Result<Option<(u32, Data)>, NoMemory>
        ensures { HandsOrNot self.old result self.new }
    {
        if self.place == 0 {
            return Ok(None);
        }
        if self.handed >= MOST_HANDED {
            return Ok(None);
        }
        let place = self.place - 1;
        if !self.peers[place].is_ready() {
            return Ok(None);
        }
        let peer = &mut self.peers[place];
        let number = peer.number();
        let Some(message) = peer.hand_out()? else {
            return Ok(None);
        };
        self.handed += 1;
        self.is_busy = true;
        Ok(Some((number, message)))
    }

    /// Writes once more what is to go on the connection that was visited last.
    fn leave(&mut self)
        ensures { LeavesOrNot self.old self.new }
    {
        if self.place == 0 {
            return;
        }
        let (place, time) = (self.place - 1, self.time);
        let peer = &mut self.peers[place];
        peer.write(time);
    }

    /// Visits the next connection of the round: what is to go on it is written, and it is read once.
    fn visit(&mut self) -> Result<(), NoMemory>
        requires { self.old.place < length self.old.peers }
        ensures { VisitsNext self.old result self.new }
    {
        let (place, time) = (self.place, self.time);
        let peer = &mut self.peers[place];
        let came = peer.visit(time)?;
        self.is_busy |= came;
        self.place = place + 1;
        self.handed = 0;
        Ok(())
    }

    /// Begins a round, behind which every connection was visited: those that are over are closed, the network
    /// is asked what may be done, and what waits is accepted.
    fn begin_round(&mut self, until: u64) -> Result<(), Failed>
        requires { length self.old.peers ≤ self.old.place }
        ensures { BeginsRound self.old result self.new }
    {
        self.sweep();
        if !self.ask(until) {
            return Err(Failed::Fault);
        }
        self.accept_all()
    }

    /// Closes the connections that are over.
    fn sweep(&mut self)
        ensures { self.new ≡ swept self.old }
    {
        self.peers.retain(|peer| !peer.is_to_close());
        self.place = 0;
        self.handed = 0;
    }

    /// Waits until the network has something to report, where nothing came in the round before, and at most
    /// until a time. What it reports may be tried again; where a wait was over with nothing, all may be.
    fn ask(&mut self, until: u64) -> bool
        ensures { Asks self.old result self.new }
    {
        let most = longest_wait(self.is_busy, until, self.time);
        if !self.network.wait(most) {
            return false;
        }
        self.is_busy = false;
        self.time = self.time.max(self.network.time());
        if most == 0 && self.network.reports().is_empty() {
            return true;
        }
        self.resume();
        true
    }

    /// Has tried again what the network reported last.
    fn resume(&mut self)
        ensures { self.new ≡ record self.old { peers = map (resumed_by self.old.reported) self.old.peers } }
    {
        let asked = may_wait(self.network.reports());
        self.is_asked |= asked;
        resume_reported(&mut self.peers, self.network.reports());
    }

    /// Accepts what waits, as far as there is room.
    fn accept_all(&mut self) -> Result<(), Failed>
        requires { self.old.place ≡ 0 }
        ensures { AcceptsAll self.old result self.new }
    {
        for _place in 0..MOST_ACCEPTED {
            if !self.accept_one()? {
                return Ok(());
            }
        }
        Ok(())
    }

    /// Accepts one connection, where one waits and there is room. Answers whether another may be tried.
    fn accept_one(&mut self) -> Result<bool, Failed>
        requires { self.old.place ≡ 0 }
        ensures { AcceptsOne self.old result self.new }
    {
        if !self.may_accept() {
            return Ok(false);
        }
        let Some(room) = room_in(&self.peers, self.time) else {
            return Ok(false);
        };
        match self.network.accept(self.given + 1) {
            Ok(conn) => match self.admit(room, conn) {
                Ok(()) => Ok(true),
                Err(NoMemory) => Err(Failed::NoMemory),
            },
            Err(Refused::Nothing) => {
                self.is_asked = false;
                Ok(false)
            }
            Err(Refused::Lost) => Ok(true),
            Err(Refused::Busy) => {
                self.paused = self.time.saturating_add(PAUSE);
                Ok(false)
            }
            Err(Refused::Fault) => Err(Failed::Fault),
            Err(Refused::NoMemory) => Err(Failed::NoMemory),
        }
    }

    /// One may be accepted now: a number is left for it, one may wait, and none was refused shortly before.
    fn may_accept(&self) -> bool
        ensures { OnTrue result (self.now.given + 1 < 2 ^ 32) }
    {
        if self.given == u32::MAX {
            return false;
        }
        self.is_asked && self.paused <= self.time
    }

    /// Closes the one at a place, where one is to be closed to make room for another.
    fn make_room(&mut self, room: Option<usize>)
        requires first { self.old.place ≡ 0 }
        requires room { FindsRoom self.old.time self.old.peers (Some room) }
        ensures room { MakesRoom self.old.time self.old.peers self.new.peers }
        ensures rest { self.new ≡ record self.old { peers = self.new.peers } }
    {
        let Some(place) = room else {
            return;
        };
        self.peers.remove(place);
    }

    /// Keeps a connection that was accepted under the next number, and closes the one at a place for it. Where
    /// memory is wanted, it is dropped.
    fn admit(&mut self, room: Option<usize>, conn: N::Conn) -> Result<(), NoMemory>
        requires first { self.old.place ≡ 0 }
        requires room { FindsRoom self.old.time self.old.peers (Some room) }
        requires number { self.old.given + 1 < 2 ^ 32 }
        ensures { Admits self.old (N.Conn.coming conn) (N.Conn.gone conn) (N.Conn.faults conn) result self.new }
    {
        let number = self.given + 1;
        let peer = Peer::new(self.alloc, number, conn, self.time);
        self.make_room(room);
        self.peers.push(peer)?;
        self.given = number;
        self.is_busy = true;
        Ok(())
    }
}
