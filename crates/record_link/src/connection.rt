//! One connection: the bytes and records that came, and those that go.

ghost use Rattle.std.specs.Prelude.{◌≡◌, ◌≤◌, ◌<◌, ◌++◌, ◌∷◌, List, ℕ, Option, [], length, ◌==◌, IfOk, OnOk, OnErr, IsErrOf, Ok, Some, None};
ghost use Rattle.std.specs.Option.{option_map};
ghost use Rattle.rpc_record.specs.Frames.{front_of, max_record, record_bytes, is_whole, with_taken, TakesOut};
ghost use Rattle.record_link.specs.Stream.{Comes, lost_more};
ghost use Rattle.record_link.specs.Messages.{unanswered_behind};
ghost use Rattle.record_link.specs.Connection.{new_connection, is_refused, is_spent, Fills, Advances, Hands, PutsRecord, Drains, HasCome, HasGone, excused};

use crate::ahead::Ahead;
use crate::message::{unanswered_after, unanswered_behind};
use crate::outgoing::Outgoing;
use crate::stream::{Halt, Stream};
use ff_xdr::{Data, NoMemory};
use rpc_record::{Frames, RecordFault};
use std::alloc::Global;
use std::marker::Model;

/// Takes out the record that is whole.
fn taken(frames: &mut Frames) -> Option<Data>
    ensures { TakesOut frames.old result frames.new }
{
    Some(Data::from_vec(frames.take()?))
}

/// One connection. Clauses see it as the front of the bytes that were read as records since the last
/// one was handed out, the bytes ahead of those, the bytes that are to go, how many records are
/// unanswered, and whether the peer has ended its side.
#[derive(Drop)]
pub struct Connection {
    frames: Frames,
    whole: Option<Data>,
    refused: bool,
    ahead: Ahead,
    to_go: Outgoing,
    unanswered: u64,
    ended: bool,
}

impl Model for Connection {
    ghost use Rattle.record_link.specs.Connection.{ConnectionState};

    ghost Value = { ConnectionState };

    ghost use Rattle.record_link.specs.Kept.{connection_state, IsKept};

    ghost view = { λ c. connection_state c.frames c.whole c.ahead c.to_go c.unanswered c.ended };

    ghost invariant = { λ c. IsKept c.frames c.whole c.refused };
}

impl Connection {
    /// A connection on which nothing has come; takes no memory.
    pub fn new(alloc: Global) -> Connection
        ensures { result ≡ new_connection }
    {
        Connection {
            frames: Frames::new(alloc),
            whole: None,
            refused: false,
            ahead: Ahead::new(alloc),
            to_go: Outgoing::new(alloc),
            unanswered: 0,
            ended: false,
        }
    }

    /// Reads once from a stream, and keeps what came behind the bytes ahead. Answers how many bytes
    /// came, at least one. At `Halt::Ended` the peer has ended its side; at any other error nothing
    /// was done.
    pub fn fill<S: Stream>(&mut self, stream: &mut S) -> Result<usize, Halt>
        ensures told { Fills self.old (S.coming stream.old) result self.new (S.coming stream.new) }
        ensures some { IfOk result (λ n. 0 < n) }
        ensures gone { S.gone stream.new ≡ S.gone stream.old }
        ensures faults { S.faults stream.new ≡ lost_more result (S.faults stream.old) }
    {
        let came = self.ahead.read_from(stream);
        if came == Err(Halt::Ended) {
            self.ended = true;
        }
        came
    }

    /// Reads the bytes ahead as records, up to the end of a whole one. A header that passes a limit
    /// is refused, and so is every call from then on. At `RecordFault::NoMemory` nothing has changed.
    pub fn advance(&mut self) -> Result<(), RecordFault>
        ensures told { (fed : List ℕ) → self.old.front ≡ front_of fed → Advances fed self.old result self.new }
        ensures goes_on { (came : List ℕ) (messages : List (List ℕ)) → HasCome came messages self.old → IfOk result (λ _. HasCome came messages self.new) }
        ensures memory { IsErrOf result RecordFault.NoMemory → self.new ≡ self.old }
    {
        if self.whole.is_some() {
            return Ok(());
        }
        match self.frames.feed(self.ahead.bytes()) {
            Ok(count) => {
                self.ahead.drop_front(count);
                self.whole = taken(&mut self.frames);
                Ok(())
            }
            Err(RecordFault::NoMemory) => Err(RecordFault::NoMemory),
            Err(fault) => {
                self.refused = true;
                Err(fault)
            }
        }
    }

    /// Hands out the record that is whole, or nothing where none is; a call is one more unanswered.
    /// Takes no memory.
    pub fn next_record(&mut self) -> Option<Data>
        ensures told { Hands self.old result self.new }
        ensures goes_on { (came : List ℕ) (messages : List (List ℕ)) → HasCome came messages self.old → HasCome came (with_taken messages result) self.new }
    {
        let message = self.whole.take()?;
        self.unanswered = unanswered_behind(message.bytes(), self.unanswered);
        Some(message)
    }

    /// Puts a message behind what is to go, as a record (RFC 5531, section 11); with a reply one fewer
    /// is unanswered. At an error nothing has changed.
    pub fn put(&mut self, message: Data) -> Result<(), NoMemory>
        requires { length message ≤ max_record }
        ensures told { PutsRecord self.old message result self.new }
        ensures goes_on { (went : List ℕ) (sent : List (List ℕ)) → HasGone went sent self.old → OnOk result (HasGone went (sent ++ message ∷ []) self.new) }
    {
        let unanswered = unanswered_after(message.bytes(), self.unanswered);
        self.to_go.put_record(message)?;
        self.unanswered = unanswered;
        Ok(())
    }

    /// A call that was handed out gets no answer: one fewer is unanswered.
    pub fn excuse(&mut self)
        ensures { self.new ≡ excused self.old }
    {
        self.unanswered = self.unanswered.saturating_sub(1);
    }

    /// Writes what is to go to a stream, until all went or the stream takes no more.
    pub fn drain<S: Stream>(&mut self, stream: &mut S) -> Result<(), Halt>
        ensures told { Drains self.old (S.gone stream.old) result self.new (S.gone stream.new) }
        ensures coming { S.coming stream.new ≡ S.coming stream.old }
        ensures faults { S.faults stream.new ≡ lost_more result (S.faults stream.old) }
    {
        self.to_go.write_to(stream)
    }

    /// How many bytes are to go.
    pub fn waiting(&self) -> usize
        ensures { result ≡ length self.now.to_go }
    {
        self.to_go.len()
    }

    /// A record is whole, and waits to be handed out.
    pub fn is_whole(&self) -> bool
        ensures { result ≡ is_whole self.now.front }
    {
        self.whole.is_some()
    }

    /// No more records come: the peer has ended its side or is refused.
    pub fn is_spent(&self) -> bool
        ensures { result ≡ is_spent self.now }
    {
        (self.ended || self.refused) && self.whole.is_none()
    }

    /// Every call that was handed out is answered, or gets no answer.
    pub fn is_answered(&self) -> bool
        ensures { result ≡ (self.now.unanswered == 0) }
    {
        self.unanswered == 0
    }
}
