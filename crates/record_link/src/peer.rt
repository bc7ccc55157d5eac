//! A connection under its number.

ghost use Rattle.std.specs.Prelude.{◌≡◌, ◌+◌, ◌≤◌, nat_le, ℕ, length, OnOk, OnErr};
ghost use Rattle.rpc_record.specs.Frames.{is_whole, max_record};
ghost use Rattle.record_link.specs.Peers.{is_ready, wants_bytes, is_to_read, is_to_retry, is_to_write, has_stalled, is_stuck, is_finished, is_to_close, is_spare, new_peer, resumed, excused_peer, ReadsAhead, FillsPeer, HandsPeer, PutsPeer, stall_after, DrainsPeer, WritesIf, ReadsIf, VisitsPeer};

use crate::connection::Connection;
use crate::stream::{Halt, Stream};
use crate::stream_connection::StreamConnection;
use ff_xdr::{Data, NoMemory};
use rpc_record::RecordFault;
use std::alloc::Global;
use std::marker::Model;

/// A peer that takes nothing of what waits for it is kept so many milliseconds, from the first try on
/// that would block.
pub const STUCK_LIMIT: u64 = 2_000;

/// A peer that has sent nothing for so many milliseconds, with all answered, may be closed to make
/// room for another.
pub const SPARE_LIMIT: u64 = 10_000;

/// The most bytes that may wait for a peer to read them.
pub const MOST_WAITING: usize = 4_194_304;

/// The most bytes that wait for a peer when another record of its is handed out.
pub const HIGH_WATER: usize = 1_048_576;

/// A connection under its number, over its own stream. Clauses see what came and what goes on it,
/// its times, what may be tried on it, and what its stream tells.
#[derive(Drop)]
pub struct Peer<S: Stream> {
    // given once
    number: u32,
    line: StreamConnection<S>,
    // when it was opened or last heard, in milliseconds
    heard: u64,
    // from when to when what is to go would not go, in milliseconds
    stalled: Option<(u64, u64)>,
    readable: bool,
    writable: bool,
    // its stream is of no use any more
    lost: bool,
}

impl<S: Stream> Model for Peer<S> {
    ghost use Rattle.record_link.specs.Peers.{PeerState};

    ghost Value = { PeerState };

    ghost view = { λ p. record {
      number = p.number;
      connection = p.line.connection;
      heard = p.heard;
      stalled = p.stalled;
      readable = p.readable;
      writable = p.writable;
      lost = p.lost;
      coming = S.coming p.line.stream;
      gone = S.gone p.line.stream;
      faults = S.faults p.line.stream;
    } };
}

impl<S: Stream> Peer<S> {
    /// The peer of a new connection over this stream; takes no memory.
    pub fn new(alloc: Global, number: u32, stream: S, now: u64) -> Peer<S>
        ensures { result ≡ new_peer number now (S.coming stream) (S.gone stream) (S.faults stream) }
    {
        Peer {
            number,
            line: StreamConnection {
                stream,
                connection: Connection::new(alloc),
            },
            heard: now,
            stalled: None,
            readable: true,
            writable: true,
            lost: false,
        }
    }

    /// Its number, given once.
    pub fn number(&self) -> u32
        ensures { result ≡ self.now.number }
    {
        self.number
    }

    /// Its stream.
    pub fn stream(&self) -> &S
        ensures coming { S.coming result.now ≡ self.now.coming }
        ensures gone { S.gone result.now ≡ self.now.gone }
        ensures faults { S.faults result.now ≡ self.now.faults }
    {
        &self.line.stream
    }

    /// When it was opened or last heard, in milliseconds.
    pub fn heard(&self) -> u64
        ensures { result ≡ self.now.heard }
    {
        self.heard
    }

    /// How many bytes are to go.
    pub fn waiting(&self) -> usize
        ensures { result ≡ length self.now.connection.to_go }
    {
        self.line.connection.waiting()
    }

    /// A record of it may be handed out.
    pub fn is_ready(&self) -> bool
        ensures { result ≡ is_ready self.now }
    {
        self.line.connection.is_whole() && (self.waiting() <= HIGH_WATER && !self.lost)
    }

    /// More is to be read from it: no record of it waits, it has not ended, and it reads what it is sent.
    fn wants_bytes(&self) -> bool
        ensures { result ≡ wants_bytes self.now }
    {
        !self.line.connection.is_whole()
            && (!self.line.connection.is_spent() && self.waiting() <= HIGH_WATER)
    }

    /// It is to be read now.
    fn is_to_read(&self) -> bool
        ensures { result ≡ is_to_read self.now }
    {
        self.readable && (!self.lost && self.wants_bytes())
    }

    /// It is to be written now.
    fn is_to_write(&self, now: u64) -> bool
        ensures { result ≡ is_to_write now self.now }
    {
        self.waiting() != 0 && (!self.lost && (self.writable || is_to_retry(now, self.stalled)))
    }

    /// It takes nothing of what waits, or more waits than may.
    fn is_stuck(&self) -> bool
        ensures { result ≡ is_stuck self.now }
    {
        self.waiting() > MOST_WAITING || has_stalled(self.stalled)
    }

    /// Nothing more is to be done for it.
    fn is_finished(&self) -> bool
        ensures { result ≡ is_finished self.now }
    {
        self.line.connection.is_spent()
            && (self.waiting() == 0 && self.line.connection.is_answered())
    }

    /// It is to be closed: its stream is of no use, it is stuck, or nothing more is to be done for it.
    pub fn is_to_close(&self) -> bool
        ensures { result ≡ is_to_close self.now }
    {
        self.lost || (self.is_stuck() || self.is_finished())
    }

    /// It may be closed to make room for another.
    pub fn is_spare(&self, now: u64) -> bool
        ensures { result ≡ is_spare now self.now }
    {
        has_passed(self.heard, SPARE_LIMIT, now)
            && (!self.line.connection.is_whole()
                && (self.waiting() == 0 && self.line.connection.is_answered()))
    }

    /// Anything may be tried on it again.
    pub fn resume(&mut self)
        ensures { self.new ≡ resumed self.old }
    {
        self.readable = true;
        self.writable = true;
    }

    /// A call of it gets no answer.
    pub fn excuse(&mut self)
        ensures { self.new ≡ excused_peer self.old }
    {
        self.line.connection.excuse();
    }

    /// Reads once from its stream, and reads what came as records.
    fn fill(&mut self, now: u64) -> Result<(), Halt>
        ensures { FillsPeer now self.old result self.new }
    {
        match self.line.fill() {
            Ok(_) => {
                self.heard = now;
                settle(&mut self.line.connection)?;
                Ok(())
            }
            Err(Halt::Ended) => {
                self.heard = now;
                self.readable = false;
                Err(Halt::Ended)
            }
            Err(Halt::WouldBlock) => {
                self.readable = false;
                Err(Halt::WouldBlock)
            }
            Err(Halt::Lost) => {
                self.lost = true;
                Err(Halt::Lost)
            }
            Err(Halt::NoMemory) => Err(Halt::NoMemory),
        }
    }

    /// Reads once from its stream, where it is to be read. Answers whether bytes came.
    fn read(&mut self, now: u64) -> Result<bool, NoMemory>
        ensures { ReadsIf (is_to_read self.old) now self.old result self.new }
    {
        if !self.is_to_read() {
            return Ok(false);
        }
        match self.fill(now) {
            Ok(()) => Ok(true),
            Err(Halt::NoMemory) => Err(NoMemory),
            Err(_) => Ok(false),
        }
    }

    /// Writes what is to go to its stream, until all went or the stream takes no more.
    pub fn drain(&mut self, now: u64)
        ensures { DrainsPeer now self.old self.new }
    {
        let before = self.waiting();
        let drained = self.line.drain();
        let has_moved = self.waiting() != before;
        match drained {
            Ok(()) => self.stalled = None,
            Err(Halt::WouldBlock) => {
                self.stalled = Some(stall_after(now, has_moved, self.stalled));
                self.writable = false;
            }
            Err(Halt::Ended | Halt::Lost | Halt::NoMemory) => self.lost = true,
        }
    }

    /// Writes what is to go, where it is to be written.
    pub fn write(&mut self, now: u64)
        ensures { WritesIf (is_to_write now self.old) now self.old self.new }
    {
        if self.is_to_write(now) {
            self.drain(now);
        }
    }

    /// Writes what is to go and reads once, where it is to be. Answers whether bytes came.
    pub fn visit(&mut self, now: u64) -> Result<bool, NoMemory>
        ensures { VisitsPeer now self.old result self.new }
    {
        self.write(now);
        self.read(now)
    }

    /// Hands out the record that is whole, and reads the bytes behind it as records. Where memory is
    /// wanted for that, the record is lost.
    pub fn hand_out(&mut self) -> Result<Option<Data>, NoMemory>
        ensures { HandsPeer self.old result self.new }
    {
        let Some(message) = self.line.connection.next_record() else {
            return Ok(None);
        };
        settle(&mut self.line.connection)?;
        Ok(Some(message))
    }

    /// Puts a message behind what is to go, as a record. At an error nothing has changed.
    pub fn put(&mut self, message: Data) -> Result<(), NoMemory>
        requires { length message ≤ max_record }
        ensures { PutsPeer self.old message result self.new }
    {
        self.line.connection.put(message)
    }
}

/// Reads the bytes ahead as records, as far as that goes.
fn settle(connection: &mut Connection) -> Result<(), NoMemory>
    ensures ok { OnOk result (ReadsAhead connection.old connection.new) }
    ensures err { OnErr result (connection.new ≡ connection.old) }
{
    match connection.advance() {
        Err(RecordFault::NoMemory) => Err(NoMemory),
        _ => Ok(()),
    }
}

/// So many milliseconds have passed since then.
fn has_passed(since: u64, limit: u64, now: u64) -> bool
    ensures { result ≡ nat_le (since + limit) now }
{
    match since.checked_add(limit) {
        Some(end) => end <= now,
        None => false,
    }
}

/// What would not go is to be tried again, whatever the network says.
fn is_to_retry(now: u64, stalled: Option<(u64, u64)>) -> bool
    ensures { result ≡ is_to_retry now stalled }
{
    match stalled {
        Some((since, _)) => has_passed(since, STUCK_LIMIT, now),
        None => false,
    }
}

/// At each try for two seconds nothing of what waits went.
fn has_stalled(stalled: Option<(u64, u64)>) -> bool
    ensures { result ≡ has_stalled stalled }
{
    match stalled {
        Some((since, until)) => has_passed(since, STUCK_LIMIT, until),
        None => false,
    }
}

/// From when to when what waits would not go, behind a try that would block.
fn stall_after(now: u64, has_moved: bool, stalled: Option<(u64, u64)>) -> (u64, u64)
    ensures { result ≡ stall_after now has_moved stalled }
{
    match stalled {
        Some((since, _)) if !has_moved => (since, now),
        _ => (now, now),
    }
}
