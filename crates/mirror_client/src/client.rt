//! A client, for its user.

ghost use Rattle.std.specs.Prelude.{◌≡◌, ◌≤◌, true, false, [], ◌++◌, length, slice_get, IfOk, OnOk, OnErr};
ghost use Rattle.cluster_model.specs.declared.limits.TheConstants.{PIECE_SIZE};
ghost use Rattle.client_state.specs.declared.request.UserRequest.TheVariants.{Open, Write, Through, Commit, Read, Return};
ghost use Rattle.mirror_client.specs.ClientRule.{client_requested, client_recorded, client_late, client_ticked, strays};
ghost use Rattle.mirror_client.specs.ClientSteps.{fresh_client_of_user, StepsBy, answer_taken, left_protocol};

use crate::events::{request, tick, time_out};
use crate::receive::receive;
use crate::rogue::{stray, turn};
use client_state::{FileName, State, UserRequest};
use cluster_model::{NodeId, Outbox, UserAnswer};
use ff_xdr::NoMemory;
use mirror_writer::WriteBytes;
use outbox_steps::hand_all;
use std::alloc::Global;
use std::marker::Model;

/// A client of the cluster. Its requests run one after the other; what a step puts out goes behind what the
/// Outbox has. A client that answered `NoMemory` is spent: each later call that can answer it answers it again,
/// and the Outbox stands as before the step.
#[derive(Drop)]
pub struct Client {
    state: State,
    is_spent: bool,
}

impl Model for Client {
    ghost use Rattle.mirror_client.specs.ClientSteps.{ClientOfUser};

    ghost Value = { ClientOfUser };

    ghost view = { λ c. record { client = c.state; is_spent = c.is_spent } };
}

impl Client {
    /// A new client, such as `c1`, whose first call has the number `first_xid`; 0 makes one that calls nobody. The
    /// verifier tells this start of it from the next (RFC 8881, section 18.35).
    pub fn new(
        alloc: Global,
        number: u32,
        verifier: [u8; 8],
        first_xid: u32,
    ) -> Result<Client, NoMemory>
        ensures { IfOk result (λ client. client ≡ fresh_client_of_user number verifier first_xid) }
    {
        let verifier = u64::from_be_bytes(verifier);
        let state = State::new(alloc, number, verifier, first_xid)?;
        Ok(Client {
            state,
            is_spent: false,
        })
    }

    /// Begins a step. The client counts as spent until the step has ended, so that an error on the way leaves it so.
    fn begin(&mut self) -> Result<Outbox, NoMemory>
        ensures was { OnOk result (self.old.is_spent ≡ false) }
        ensures entries { IfOk result (λ own. own.entries.items ≡ []) }
        ensures sends { IfOk result (λ own. own.sends.items ≡ []) }
        ensures client { self.new.client ≡ self.old.client }
        ensures is { self.new.is_spent ≡ true }
    {
        if self.is_spent {
            return Err(NoMemory);
        }
        self.is_spent = true;
        Ok(Outbox::new(self.state.alloc))
    }

    /// Ends a step, which put this out.
    fn end(&mut self, own: Outbox, out: &mut Outbox) -> Result<(), NoMemory>
        requires { self.old.is_spent ≡ true }
        ensures client { self.new.client ≡ self.old.client }
        ensures is { OnOk result (self.new.is_spent ≡ false) }
        ensures spent { OnErr result (self.new.is_spent ≡ true) }
        ensures entries { OnOk result (out.new.entries.items ≡ out.old.entries.items ++ own.entries.items) }
        ensures sends { OnOk result (out.new.sends.items ≡ out.old.sends.items ++ own.sends.items) }
        ensures no_entries { OnErr result (out.new.entries.items ≡ out.old.entries.items) }
        ensures no_sends { OnErr result (out.new.sends.items ≡ out.old.sends.items) }
    {
        hand_all(own, out)?;
        self.is_spent = false;
        Ok(())
    }

    /// A request joins the queue.
    fn ask(&mut self, asked: UserRequest, out: &mut Outbox) -> Result<(), NoMemory>
        ensures { StepsBy (client_requested asked) self.old out.old result self.new out.new }
    {
        let mut own = self.begin()?;
        request(&mut self.state, asked, &mut own)?;
        self.end(own, out)
    }

    /// Opens the file with this name of at most 255 bytes: SEQUENCE, PUTROOTFH, OPEN, GETFH. A client opens one file.
    pub fn open(&mut self, name: &str, out: &mut Outbox) -> Result<(), NoMemory>
        requires { length name.now ≤ 255 }
        ensures { StepsBy (client_requested (Open name.now)) self.old out.old result self.new out.new }
    {
        let mut own = self.begin()?;
        let name = FileName::of(self.state.alloc, name)?;
        request(&mut self.state, UserRequest::Open(name), &mut own)?;
        self.end(own, out)
    }

    /// Writes 1 to 65,536 bytes from this place of the file on, to each mirror of a layout (RFC 8435, section 8).
    pub fn write(&mut self, at: u64, bytes: &[u8], out: &mut Outbox) -> Result<(), NoMemory>
        requires some { 1 ≤ length bytes.now }
        requires few { length bytes.now ≤ PIECE_SIZE }
        ensures { StepsBy (client_requested (Write at bytes.now)) self.old out.old result self.new out.new }
    {
        let mut own = self.begin()?;
        let bytes = WriteBytes::of(self.state.alloc, bytes)?;
        request(&mut self.state, UserRequest::Write { at, bytes }, &mut own)?;
        self.end(own, out)
    }

    /// Writes 1 to 65,536 bytes through the metadata server (RFC 8881, section 18.32). A layout is given back first.
    pub fn through(&mut self, at: u64, bytes: &[u8], out: &mut Outbox) -> Result<(), NoMemory>
        requires some { 1 ≤ length bytes.now }
        requires few { length bytes.now ≤ PIECE_SIZE }
        ensures { StepsBy (client_requested (Through at bytes.now)) self.old out.old result self.new out.new }
    {
        let mut own = self.begin()?;
        let bytes = WriteBytes::of(self.state.alloc, bytes)?;
        request(
            &mut self.state,
            UserRequest::Through { at, bytes },
            &mut own,
        )?;
        self.end(own, out)
    }

    /// Commits what was written under the layout: COMMIT to each mirror (RFC 1813, section 3.3.21).
    pub fn commit(&mut self, out: &mut Outbox) -> Result<(), NoMemory>
        ensures { StepsBy (client_requested Commit) self.old out.old result self.new out.new }
    {
        self.ask(UserRequest::Commit, out)
    }

    /// Reads so many bytes from this place of the file on, through the metadata server (RFC 8881, section 18.22).
    pub fn read(&mut self, at: u64, count: u32, out: &mut Outbox) -> Result<(), NoMemory>
        ensures { StepsBy (client_requested (Read at count)) self.old out.old result self.new out.new }
    {
        self.ask(UserRequest::Read { at, count }, out)
    }

    /// Gives the layout back: what was written is committed, and then LAYOUTRETURN (RFC 8881, section 18.44).
    pub fn return_all(&mut self, out: &mut Outbox) -> Result<(), NoMemory>
        ensures { StepsBy (client_requested Return) self.old out.old result self.new out.new }
    {
        self.ask(UserRequest::Return, out)
    }

    /// A record came from a node, at `now`, in seconds. What is neither a reply to a call that is outstanding there
    /// nor a callback is passed over.
    pub fn on_record(
        &mut self,
        from: NodeId,
        message: &[u8],
        now: u64,
        out: &mut Outbox,
    ) -> Result<(), NoMemory>
        ensures { StepsBy (client_recorded from message.now now) self.old out.old result self.new out.new }
    {
        let mut own = self.begin()?;
        receive(&mut self.state, from, message, now, &mut own)?;
        self.end(own, out)
    }

    /// The call of this number that is outstanding at a node timed out, or, without a number, whichever is outstanding there;
    /// nothing happens where there is none.
    pub fn on_timeout(
        &mut self,
        to: NodeId,
        xid: Option<u32>,
        out: &mut Outbox,
    ) -> Result<(), NoMemory>
        ensures { StepsBy (client_late to xid) self.old out.old result self.new out.new }
    {
        let mut own = self.begin()?;
        time_out(&mut self.state, to, xid, &mut own)?;
        self.end(own, out)
    }

    /// Time passed; it is `now`, in seconds. What waited for the tick is asked again, and a lease is renewed.
    pub fn tick(&mut self, now: u64, out: &mut Outbox) -> Result<(), NoMemory>
        ensures { StepsBy (client_ticked now) self.old out.old result self.new out.new }
    {
        let mut own = self.begin()?;
        tick(&mut self.state, now, &mut own)?;
        self.end(own, out)
    }

    /// Takes the oldest answer that was not taken. Each is also an entry in the Outbox of the call that gave it.
    pub fn answers(&mut self) -> Option<UserAnswer>
        ensures oldest { result ≡ slice_get self.old.client.answers 0 }
        ensures rest { self.new ≡ answer_taken self.old }
    {
        self.state.answers.pop_front()
    }

    /// It leaves the protocol: from then on all calls but `stray`, `answers` and `next_xid` do nothing.
    pub fn turn(&mut self)
        ensures { self.new ≡ left_protocol self.old }
    {
        turn(&mut self.state);
    }

    /// Whether it left the protocol.
    pub fn has_left(&self) -> bool
        ensures { result ≡ self.now.client.has_left }
    {
        self.state.has_left
    }

    /// The number of its next call, with which a reboot makes the new client; 0 where none is left.
    pub fn next_xid(&self) -> u32
        ensures { result ≡ self.now.client.next_xid }
    {
        self.state.next_xid
    }

    /// A client that left sends a WRITE of at most 65,536 bytes to the mirror at this place of its layout, from 1,
    /// while no LAYOUTRETURN of it was sent.
    pub fn stray(
        &mut self,
        place: u32,
        at: u64,
        bytes: &[u8],
        out: &mut Outbox,
    ) -> Result<(), NoMemory>
        requires left { self.old.client.has_left ≡ true }
        requires few { length bytes.now ≤ PIECE_SIZE }
        ensures { StepsBy (λ c. strays c.file c.layout place at bytes.now c) self.old out.old result self.new out.new }
    {
        let mut own = self.begin()?;
        stray(&mut self.state, place, at, bytes, &mut own)?;
        self.end(own, out)
    }
}
