//! Bytes that are to go: they come behind the others, and are taken from the front.

ghost use Rattle.std.specs.Prelude.{◌≡◌, ◌↔◌, ◌≤◌, ◌<◌, ◌+◌, ◌++◌, List, ℕ, [], length, drop, IfOk, IsTrue, true};
ghost use Rattle.std.specs.List.{concat};
ghost use Rattle.ff_xdr.specs.Calls.{Puts};
ghost use Rattle.ff_xdr.specs.Form.{word};
ghost use Rattle.rpc_record.specs.Frames.{max_record, record_bytes, header_word};
ghost use Rattle.record_link.specs.Stream.{WritesStream, WritesOut, lost_more};

use crate::stream::{Halt, Stream};
use ff_xdr::{Data, NoMemory};
use std::alloc::Global;
use std::collections::VecDeque;
use std::marker::Model;
use std::mem;

/// The most bytes of a message that are copied behind the others. A longer one is kept as it is.
const MOST_COPIED: usize = 4_096;

/// Bytes that wait: pieces, none of them empty, and a tail behind them all. Of the tail, bytes that
/// were taken are dropped once they are more than half.
#[derive(Debug, Drop)]
pub struct Outgoing {
    alloc: Global,
    pieces: VecDeque<Data>,
    tail: Vec<u8>,
    // how many bytes of the first piece, or of the tail where there is no piece, were taken
    start: usize,
    // how many bytes wait in all
    waiting: usize,
}

impl Model for Outgoing {
    ghost use Rattle.std.specs.Prelude.{◌≡◌, ◌≤◌, ◌<◌, ◌+◌, ◌++◌, List, ℕ, [], length, get_or, drop};
    ghost use Rattle.std.specs.List.{concat, AllByRecursion};

    ghost Value = { List ℕ };

    ghost view = { λ p. drop p.start (concat p.pieces.items ++ p.tail.items) };

    ghost invariant = { λ p. (p.start + p.waiting ≡ length (concat p.pieces.items ++ p.tail.items)) × AllByRecursion (λ piece. 0 < length piece) p.pieces.items × (0 < length p.pieces.items → p.start < length (get_or p.pieces.items 0 [])) };
}

/// The header of a record of one fragment (RFC 5531, section 11): its length, and the highest bit.
#[tactic(auto, unfolding(ff_xdr::specs::Form::word))]
fn header_of(message: &[u8]) -> [u8; 4]
    requires { length message.now ≤ max_record }
    ensures { result ≡ word (header_word (length message.now) true) }
{
    let header = 0x8000_0000 + message.len() as u32;
    header.to_be_bytes()
}

/// So many bytes with a message's record behind them; an error where that is past any count.
fn with_record(waiting: usize, message: &[u8]) -> Result<usize, NoMemory>
    requires { length message.now ≤ max_record }
    ensures { IfOk result (λ n. n ≡ waiting + (4 + length message.now)) }
{
    match waiting.checked_add(4 + message.len()) {
        Some(count) => Ok(count),
        None => Err(NoMemory),
    }
}

/// Appends a message as a record of one fragment, or nothing.
fn copy_record(bytes: &mut Vec<u8>, message: &[u8]) -> Result<(), NoMemory>
    requires { length message.now ≤ max_record }
    ensures { Puts bytes.old.items result bytes.new.items (record_bytes message.now) }
{
    let mark = bytes.len();
    let header = header_of(message);
    bytes.extend_from_slice(&header)?;
    if bytes.extend_from_slice(message).is_err() {
        bytes.truncate(mark);
        return Err(NoMemory);
    }
    Ok(())
}

/// Moves the bytes from a place on to the front, where those before it are more than half, or all.
/// Answers where they begin.
fn move_front(bytes: &mut Vec<u8>, start: usize) -> usize
    requires { start ≤ length bytes.old.items }
    ensures stays { drop result bytes.new.items ≡ drop start bytes.old.items }
    ensures within { result ≤ length bytes.new.items }
{
    if start <= bytes.len() / 2 && start < bytes.len() {
        return start;
    }
    let left = bytes.len() - start;
    bytes.copy_within(start.., 0);
    bytes.truncate(left);
    0
}

/// The first piece behind the first, or the tail where there is none.
fn second<'a>(pieces: &'a VecDeque<Data>, tail: &'a [u8]) -> &'a [u8]
    ensures { (rest : List ℕ) × (concat (drop 1 pieces.now.items) ++ tail.now ≡ result.now ++ rest) }
{
    match pieces.get(1) {
        Some(piece) => piece.bytes(),
        None => tail,
    }
}

impl Outgoing {
    /// Nothing waits; takes no memory.
    pub fn new(alloc: Global) -> Outgoing
        ensures { result ≡ [] }
    {
        Outgoing {
            alloc,
            pieces: VecDeque::new(alloc),
            tail: Vec::new(alloc),
            start: 0,
            waiting: 0,
        }
    }

    /// How many bytes wait.
    pub fn len(&self) -> usize
        ensures { result ≡ length self.now }
    {
        self.waiting
    }

    /// Nothing waits.
    pub fn is_empty(&self) -> bool
        ensures { IsTrue result ↔ (self.now ≡ []) }
    {
        self.len() == 0
    }

    /// Takes so many bytes from the front, or what is left of the first piece where that is less.
    /// Answers how many are still to be taken.
    fn drop_some(&mut self, count: usize) -> usize
        requires { count ≤ length self.old }
        ensures left { drop result self.new ≡ drop count self.old }
        ensures within { result ≤ length self.new }
        ensures less { 0 < count → result < count }
    {
        let Some(first) = self.pieces.front() else {
            self.start = move_front(&mut self.tail, self.start + count);
            self.waiting -= count;
            return 0;
        };
        let rest = first.bytes().len() - self.start;
        if count < rest {
            self.start += count;
            self.waiting -= count;
            return 0;
        }
        self.pieces.pop_front();
        self.start = 0;
        self.waiting -= rest;
        count - rest
    }

    /// Takes so many bytes from the front.
    pub fn drop_front(&mut self, count: usize)
        requires { count ≤ length self.old }
        ensures { self.new ≡ drop count self.old }
    {
        let mut left = count;
        while left > 0 {
            left = self.drop_some(left);
        }
    }

    /// Copies a message behind the others as a record of one fragment, or nothing.
    fn put_copy(&mut self, message: &[u8]) -> Result<(), NoMemory>
        requires { length message.now ≤ max_record }
        ensures { Puts self.old result self.new (record_bytes message.now) }
    {
        let waiting = with_record(self.waiting, message)?;
        copy_record(&mut self.tail, message)?;
        self.waiting = waiting;
        Ok(())
    }

    /// Puts a message behind the others as a record of one fragment, and keeps it as it is; or nothing.
    fn put_piece(&mut self, message: Data) -> Result<(), NoMemory>
        requires within { length message ≤ max_record }
        requires filled { 0 < length message }
        ensures { Puts self.old result self.new (record_bytes message) }
    {
        let header = header_of(message.bytes());
        let waiting = with_record(self.waiting, message.bytes())?;
        self.pieces.reserve(2)?;
        self.tail.extend_from_slice(&header)?;
        let tail = mem::replace(&mut self.tail, Vec::new(self.alloc));
        self.pieces.push_back_reserved(Data::from_vec(tail));
        self.pieces.push_back_reserved(message);
        self.waiting = waiting;
        Ok(())
    }

    /// Appends a message as a record of one fragment (RFC 5531, section 11), or nothing.
    pub fn put_record(&mut self, message: Data) -> Result<(), NoMemory>
        requires { length message ≤ max_record }
        ensures { Puts self.old result self.new (record_bytes message) }
    {
        if message.bytes().len() > MOST_COPIED {
            return self.put_piece(message);
        }
        self.put_copy(message.bytes())
    }

    /// Writes once to a stream, from the first two slices that wait. Answers how many bytes went.
    fn write_some<S: Stream>(&self, stream: &mut S) -> Result<usize, Halt>
        requires { 0 < length self.now }
        ensures within { IfOk result (λ n. n ≤ length self.now) }
        ensures some { IfOk result (λ n. 0 < n) }
        ensures told { WritesStream (S.gone stream.old) self.now result (S.gone stream.new) }
        ensures coming { S.coming stream.new ≡ S.coming stream.old }
        ensures faults { S.faults stream.new ≡ lost_more result (S.faults stream.old) }
    {
        match self.pieces.front() {
            Some(first) => {
                let behind = second(&self.pieces, &self.tail);
                stream.write(&first.bytes()[self.start..], behind)
            }
            None => stream.write(&self.tail[self.start..], &[]),
        }
    }

    /// Writes what waits to a stream, until all has gone or the stream takes no more.
    pub fn write_to<S: Stream>(&mut self, stream: &mut S) -> Result<(), Halt>
        ensures told { WritesOut self.old (S.gone stream.old) result self.new (S.gone stream.new) }
        ensures coming { S.coming stream.new ≡ S.coming stream.old }
        ensures faults { S.faults stream.new ≡ lost_more result (S.faults stream.old) }
    {
        while !self.is_empty() {
            let count = self.write_some(stream)?;
            self.drop_front(count);
        }
        Ok(())
    }
}
