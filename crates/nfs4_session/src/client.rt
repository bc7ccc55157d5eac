//! One client's record.

ghost use Rattle.std.specs.Prelude.{◌≡◌, ◌&&◌, IfOk, IfNone, OnOk, OnErr, None, false, find, bytes_eq, is_some, option_copied};
ghost use Rattle.std.specs.List.{last_or};
ghost use Rattle.nfs4_session.specs.Clients.{is_owned_by, has_number};
ghost use Rattle.nfs4_session.specs.ExchangeIds.{exchanged};
ghost use Rattle.nfs4_session.specs.CreateSessions.{with_new_session};
ghost use Rattle.nfs4_session.specs.Requests.{answer_by_session};
ghost use Rattle.nfs4_session.specs.Ends.{busy_with};
ghost use Rattle.nfs4_session.specs.Changes.{changed};
ghost use Rattle.nfs4_session.specs.Asked.{case_result, fresh_record, case_in};
ghost use Rattle.nfs4_session.specs.Turns.{turn_of, kept_in_session};

use crate::change::Change;
use crate::client_sessions::{
    begin_in, bind_in, call_back_in, destroy_in, finish_in, kept_in, place_of, turn_in,
};
use crate::session::Session;
use crate::slot::Turn;
use crate::{Exchanged, SessionFault, next_sequence};
use ff_xdr::NoMemory;
use nfs4_types::Sequence;
use std::alloc::Global;
use std::marker::Model;

/// The most sessions that a client has.
pub const MAX_SESSIONS: usize = 4;

/// The session that a client's last CREATE_SESSION made, and the number of that call.
#[derive(Clone, Copy, Debug, PartialEq, Eq)]
pub struct Made {
    pub sequence: u32,
    pub number: u64,
}

/// A client's record (RFC 8881, section 2.4).
#[derive(Drop)]
pub struct ClientRecord {
    id: u64,
    owner: Vec<u8>,
    verifier: [u8; 8],
    sequence: u32,
    made: Option<Made>,
    confirmed: bool,
    renewed: u64,
    sessions: Vec<Session>,
}

impl Model for ClientRecord {
    ghost use Rattle.nfs4_session.specs.Clients.{ClientState};

    ghost Value = { ClientState };

    ghost use Rattle.nfs4_session.specs.Asked.{last_made};

    ghost view = { λ c. record { id = c.id; owner = c.owner.items; verifier = c.verifier; sequence = c.sequence; made = last_made c.made; confirmed = c.confirmed; renewed = c.renewed; sessions = c.sessions.items } };
}

impl ClientRecord {
    /// The record of a new client, not confirmed, with no session.
    pub fn new(
        alloc: Global,
        id: u64,
        owner: &[u8],
        verifier: [u8; 8],
        now: u64,
    ) -> Result<ClientRecord, NoMemory>
        ensures { IfOk result (λ c. c ≡ fresh_record id owner.now verifier now) }
    {
        let owner = Vec::from_slice(alloc, owner)?;
        Ok(ClientRecord {
            id,
            owner,
            verifier,
            sequence: 1,
            made: None,
            confirmed: false,
            renewed: now,
            sessions: Vec::new(alloc),
        })
    }

    /// Its id.
    pub fn id(&self) -> u64
        ensures { result ≡ self.now.id }
    {
        self.id
    }

    /// Its owner.
    pub fn owner(&self) -> &[u8]
        ensures { result.now ≡ self.now.owner }
    {
        &self.owner
    }

    /// It is confirmed.
    pub fn is_confirmed(&self) -> bool
        ensures { result ≡ self.now.confirmed }
    {
        self.confirmed
    }

    /// The moment of its last renewal, in seconds.
    pub fn renewed(&self) -> u64
        ensures { result ≡ self.now.renewed }
    {
        self.renewed
    }

    /// It is of this owner.
    pub fn is_owned_by(&self, owner: &[u8]) -> bool
        ensures { result ≡ is_owned_by owner.now self.now }
    {
        self.owner.as_slice() == owner
    }

    /// It is of this verifier and this owner.
    pub fn is_by(&self, verifier: [u8; 8], owner: &[u8]) -> bool
        ensures { result ≡ is_owned_by owner.now self.now && bytes_eq self.now.verifier verifier }
    {
        self.is_owned_by(owner) && self.verifier == verifier
    }

    /// What EXCHANGE_ID answers of it.
    pub fn exchanged(&self) -> Exchanged
        ensures { result ≡ exchanged self.now }
    {
        Exchanged {
            client: self.id,
            sequence: self.sequence,
            confirmed: self.confirmed,
        }
    }

    /// What a CREATE_SESSION of this number comes to: the session that it made already, or none where
    /// one is due.
    pub fn asked(&self, sequence: u32, are_spent: bool) -> Result<Option<u64>, SessionFault>
        ensures exact { result ≡ case_result (case_in self.now sequence are_spent) }
        ensures spare { IfOk result (λ made. IfNone made (are_spent ≡ false)) }
    {
        if let Some(made) = self.made
            && made.sequence == sequence
        {
            return Ok(Some(made.number));
        }
        if sequence != self.sequence {
            return Err(SessionFault::Misordered);
        }
        if self.sessions.len() >= MAX_SESSIONS || are_spent {
            return Err(SessionFault::Full);
        }
        Ok(None)
    }

    /// Its next CREATE_SESSION made this session: it is confirmed, and its lease is renewed.
    pub fn add(&mut self, session: Session, now: u64) -> Result<(), NoMemory>
        ensures ok { OnOk result (self.new ≡ with_new_session session now self.old) }
        ensures err { OnErr result (self.new ≡ self.old) }
    {
        let number = session.number();
        self.sessions.push(session)?;
        self.made = Some(Made {
            sequence: self.sequence,
            number,
        });
        self.sequence = next_sequence(self.sequence);
        self.confirmed = true;
        self.renewed = now;
        Ok(())
    }

    /// What a request comes to on a session of it.
    pub fn turn(&self, session: u64, request: &Sequence) -> Turn
        ensures { result ≡ turn_of (answer_by_session request.now (find (has_number session) self.now.sessions)) }
    {
        turn_in(&self.sessions, session, request)
    }

    /// The kept reply of a slot of a session of it, or no bytes.
    pub fn kept(&self, session: u64, slot: u32) -> &[u8]
        ensures { result.now ≡ kept_in_session slot (find (has_number session) self.now.sessions) }
    {
        kept_in(&self.sessions, session, slot)
    }

    /// Its session that was made or bound last.
    pub fn last(&self) -> Option<&Session>
        ensures { option_copied result ≡ last_or None self.now.sessions }
    {
        self.sessions.last()
    }

    /// It has sessions.
    pub fn is_busy(&self) -> bool
        ensures { result ≡ is_some (busy_with self.now.sessions) }
    {
        !self.sessions.is_empty()
    }

    /// It has a session of this number.
    pub fn has_session(&self, session: u64) -> bool
        ensures { result ≡ is_some (find (has_number session) self.now.sessions) }
    {
        place_of(&self.sessions, session).is_some()
    }

    /// Makes a change of it.
    pub fn change(&mut self, change: Change<'_>)
        ensures { self.new ≡ changed change.entry self.old }
    {
        match change {
            Change::Renew(now) => self.renewed = now,
            Change::Begin {
                session,
                slot,
                number,
                now,
            } => {
                begin_in(&mut self.sessions, session, slot, number);
                self.renewed = now;
            }
            Change::Finish {
                session,
                slot,
                number,
                reply,
            } => finish_in(&mut self.sessions, session, slot, number, reply),
            Change::Bind { session, node } => bind_in(&mut self.sessions, session, node),
            Change::CallBack { session } => call_back_in(&mut self.sessions, session),
            Change::Destroy { session } => destroy_in(&mut self.sessions, session),
        }
    }
}
