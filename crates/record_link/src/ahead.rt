//! Bytes that came and wait: they are read from a stream, and taken from the front.

ghost use Rattle.std.specs.Prelude.{◌≡◌, ◌<◌, ◌≤◌, ◌-◌, List, ℕ, [], length, take, drop, IfOk, OnOk};
ghost use Rattle.record_link.specs.Stream.{ReadsAt, ReadsInto, lost_more};

use crate::stream::{Halt, Stream};
use ff_xdr::NoMemory;
use std::alloc::Global;
use std::marker::Model;

/// The most bytes that are read at once: a call with 64 KiB of data, and its header.
const ROOM: usize = 73_728;

/// Bytes that came and wait. Behind them there is room to read into, which is kept from one read to
/// the next. Those that were taken are dropped once they are more than half.
#[derive(Debug, Drop)]
pub struct Ahead {
    buffer: Vec<u8>,
    // the place of the first that waits
    start: usize,
    // the place behind the last
    end: usize,
}

impl Model for Ahead {
    ghost Value = { List ℕ };

    ghost view = { λ a. drop a.start (take a.end a.buffer.items) };

    ghost invariant = { λ a. (a.start ≤ a.end) × (a.end ≤ length a.buffer.items) };
}

/// Reads once from a stream into a buffer, from a place on.
fn read_at<S: Stream>(buffer: &mut [u8], mark: usize, stream: &mut S) -> Result<usize, Halt>
    requires { mark < length buffer.old }
    ensures told { ReadsAt mark buffer.old (S.coming stream.old) result buffer.new (S.coming stream.new) }
    ensures some { IfOk result (λ n. 0 < n) }
    ensures gone { S.gone stream.new ≡ S.gone stream.old }
    ensures faults { S.faults stream.new ≡ lost_more result (S.faults stream.old) }
{
    stream.read(&mut buffer[mark..])
}

/// Makes room behind a place. What stands there already is kept as it is, so nothing is filled twice.
/// At an error there is none.
fn make_room(buffer: &mut Vec<u8>, end: usize) -> Result<(), NoMemory>
    requires { end ≤ length buffer.old.items }
    ensures room { OnOk result (end < length buffer.new.items) }
    ensures within { end ≤ length buffer.new.items }
    ensures stays { take end buffer.new.items ≡ take end buffer.old.items }
{
    if buffer.len() - end >= ROOM {
        return Ok(());
    }
    if buffer.resize(end.saturating_add(ROOM), 0).is_err() || buffer.len() == end {
        return Err(NoMemory);
    }
    Ok(())
}

/// Moves the bytes between two places to the front.
fn move_front(buffer: &mut Vec<u8>, start: usize, end: usize)
    requires ordered { start ≤ end }
    requires within { end ≤ length buffer.old.items }
    ensures moved { take (end - start) buffer.new.items ≡ drop start (take end buffer.old.items) }
    ensures len { length buffer.new.items ≡ length buffer.old.items }
{
    buffer.copy_within(start..end, 0);
}

impl Ahead {
    /// Nothing waits; takes no memory.
    pub fn new(alloc: Global) -> Ahead
        ensures { result ≡ [] }
    {
        Ahead {
            buffer: Vec::new(alloc),
            start: 0,
            end: 0,
        }
    }

    /// The bytes that wait.
    pub fn bytes(&self) -> &[u8]
        ensures { result.now ≡ self.now }
    {
        &self.buffer[self.start..self.end]
    }

    /// Takes so many bytes from the front.
    pub fn drop_front(&mut self, count: usize)
        requires { count ≤ length self.old }
        ensures { self.new ≡ drop count self.old }
    {
        let (start, end) = (self.start + count, self.end);
        if start > end / 2 || start == end {
            move_front(&mut self.buffer, start, end);
            self.start = 0;
            self.end = end - start;
        } else {
            self.start = start;
        }
    }

    /// Appends what a stream gives at once.
    pub fn read_from<S: Stream>(&mut self, stream: &mut S) -> Result<usize, Halt>
        ensures told { ReadsInto self.old (S.coming stream.old) result self.new (S.coming stream.new) }
        ensures some { IfOk result (λ n. 0 < n) }
        ensures gone { S.gone stream.new ≡ S.gone stream.old }
        ensures faults { S.faults stream.new ≡ lost_more result (S.faults stream.old) }
    {
        let end = self.end;
        make_room(&mut self.buffer, end)?;
        let count = read_at(self.buffer.as_mut_slice(), end, stream)?;
        self.end = end + count;
        Ok(count)
    }
}
