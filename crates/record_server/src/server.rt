//! A server that keeps many connections.

ghost use Rattle.std.specs.Prelude.{◌≡◌, ℕ, MatchOption};
ghost use Rattle.std.specs.Bool.{OnTrue};
ghost use Rattle.record_server.specs.Server.{no_connections, Connects, ExcusesCall, HasNoNumber, IsPlaceOf, IsListed, IsSpent, SendsRecord};

use crate::network::Network;
use crate::peers::find;
use device_addr::NetAddr;
use ff_xdr::{Data, NoMemory};
use record_link::Peer;
use rpc_record::MAX_RECORD;
use std::alloc::Global;
use std::marker::Model;

/// With so many connections open none is accepted, but in the place of one that may be closed.
pub const MAX_CONNECTIONS: usize = 512;

/// The most connections that are open, with those that were made.
pub(crate) const MOST_OPEN: usize = 544;

/// The most records of a connection that are handed out in a round.
pub(crate) const MOST_HANDED: u32 = 8;

/// Keeps the connections that a network gives and those that are made over it, each under a number that
/// is given once, in rising order, and hands out the records that come on them.
///
/// It goes in rounds: each visits every connection once, in order, and hands out a few records of it.
#[derive(Drop)]
pub struct RecordServer<N: Network> {
    pub(crate) alloc: Global,
    pub(crate) network: N,
    pub(crate) peers: Vec<Peer<N::Conn>>,
    pub(crate) given: u32,
    pub(crate) time: u64,
    // how many connections were visited in this round
    pub(crate) place: usize,
    // how many records were handed out of the last of them since
    pub(crate) handed: u32,
    // a connection may wait to be accepted
    pub(crate) is_asked: bool,
    // none is accepted before this time
    pub(crate) paused: u64,
    // something came, or was handed out, in this round
    pub(crate) is_busy: bool,
}

impl<N: Network> Model for RecordServer<N> {
    ghost use Rattle.record_server.specs.Server.{ServingState, IsOrderly};

    ghost Value = { ServingState };

    ghost view = { λ s. record {
      peers = s.peers.items;
      given = s.given;
      time = s.time;
      place = s.place;
      handed = s.handed;
      waiting = N.waiting s.network;
      made = N.made s.network;
      reported = N.reported s.network;
      moment = N.moment s.network;
      faults = N.faults s.network;
    } };

    ghost invariant = { λ s. IsOrderly s.peers.items s.given s.place };
}

/// Puts a message on the connection of this number. Where that is gone, or the message is longer than a
/// record may be, it is lost.
fn put_on<N: Network>(
    server: &mut RecordServer<N>,
    number: u32,
    message: Data,
) -> Result<(), NoMemory>
    ensures { SendsRecord number message server.old result server.new }
{
    if message.bytes().len() > MAX_RECORD {
        return Ok(());
    }
    match find(&server.peers, number) {
        Some(place) => {
            let peer = &mut server.peers[place];
            peer.put(message)
        }
        None => Ok(()),
    }
}

impl<N: Network + Drop> RecordServer<N> {
    /// A server over a network, with no connection yet; takes no memory.
    pub fn new(alloc: Global, network: N) -> RecordServer<N>
        ensures { result ≡ no_connections (N.waiting network) (N.made network) (N.reported network) (N.moment network) (N.faults network) }
    {
        RecordServer {
            alloc,
            network,
            peers: Vec::new(alloc),
            given: 0,
            time: 0,
            place: 0,
            handed: 0,
            is_asked: true,
            paused: 0,
            is_busy: false,
        }
    }

    /// The time, in milliseconds, at which this round began.
    pub fn time(&self) -> u64
        ensures { result ≡ self.now.time }
    {
        self.time
    }

    /// The network.
    pub fn network(&self) -> &N
        ensures { N.made result.now ≡ self.now.made }
    {
        &self.network
    }

    /// The stream of the connection of this number, where it is open.
    pub fn stream(&self, number: u32) -> Option<&N::Conn>
        ensures { MatchOption result (HasNoNumber number self.now.peers) (λ s. (place : ℕ) × (found : IsPlaceOf number self.now.peers place) × (N.Conn.coming s.now ≡ found.peer.coming) × (N.Conn.gone s.now ≡ found.peer.gone)) }
    {
        match find(&self.peers, number) {
            Some(place) => Some(self.peers[place].stream()),
            None => None,
        }
    }

    /// The connection of this number is open.
    pub fn is_open(&self, number: u32) -> bool
        ensures { IsListed result number self.now.peers }
    {
        find(&self.peers, number).is_some()
    }

    /// No connection is left, and all numbers are given.
    pub fn is_spent(&self) -> bool
        ensures { OnTrue result (IsSpent self.now) }
    {
        self.peers.is_empty() && self.given == u32::MAX
    }

    /// Sends a message on the connection of this number, as a record: it stands behind what is to go, and is
    /// written by `next` or `flush`. Where the connection is gone, or the message is longer than a record may
    /// be, it is lost. At an error nothing was sent.
    pub fn send(&mut self, number: u32, message: Data) -> Result<(), NoMemory>
        ensures { SendsRecord number message self.old result self.new }
    {
        // what was put is to go before a wait
        self.is_busy = true;
        put_on(self, number, message)
    }

    /// A call that came on the connection of this number gets no answer.
    pub fn excuse(&mut self, number: u32)
        ensures { ExcusesCall number self.old self.new }
    {
        if let Some(place) = find(&self.peers, number) {
            self.peers[place].excuse();
        }
    }

    /// Begins to make a connection to an address, and answers its number. `None` where it cannot be made
    /// now: the network refuses it, as many are open as may be, or all numbers are given. At an error nothing
    /// has changed.
    pub fn connect(&mut self, address: NetAddr) -> Result<Option<u32>, NoMemory>
        ensures { Connects address self.old result self.new }
    {
        if self.peers.len() >= MOST_OPEN || self.given == u32::MAX {
            return Ok(None);
        }
        self.peers.reserve(1)?;
        let number = self.given + 1;
        let Some(conn) = self.network.connect(number, address)? else {
            return Ok(None);
        };
        let peer = Peer::new(self.alloc, number, conn, self.time);
        self.peers.push(peer)?;
        self.given = number;
        Ok(Some(number))
    }
}
