//! The clients that a server knows, and their sessions.

ghost use Rattle.std.specs.Prelude.{◌≡◌, ◌+◌, ◌<◌, ◌^◌, length, remove, find, position, option_copied, IfOk, OnOk, OnErr};
ghost use Rattle.std.specs.Bool.{OnFalse};
ghost use Rattle.nfs4_session.specs.Clients.{no_clients, with_clients, has_id, change_first, client_id};
ghost use Rattle.nfs4_session.specs.ExchangeIds.{known_owners, ids_are_spent, new_client, with_new_client};
ghost use Rattle.nfs4_session.specs.CreateSessions.{numbers_are_spent, with_new_session};
ghost use Rattle.nfs4_session.specs.Ends.{without_client};
ghost use Rattle.nfs4_session.specs.Changes.{changed};
ghost use Rattle.nfs4_session.specs.Standing.{with_numbers};

use crate::change::Change;
use crate::client::ClientRecord;
use crate::seek::{Seek, any};
use crate::session::Session;
use ff_xdr::NoMemory;
use indexmap::IndexSet;
use std::alloc::Global;
use std::marker::Model;

/// The clients that a server knows, with their sessions (RFC 8881, sections 2.4 and 2.10).
///
/// A client's id is the boot's number and then the client's, from 1, 32 bits each. Sessions are numbered
/// from 1 over all clients. Neither is given twice. Times are seconds, and a lease lasts 90 of them.
#[derive(Drop)]
pub struct Sessions {
    alloc: Global,
    boot: u32,
    // the id of each record, at the record's place
    places: IndexSet<u64>,
    clients: Vec<ClientRecord>,
    // how many owners have a record
    owners: usize,
    // how many ids, and how many numbers of sessions, are given
    ids: u32,
    numbers: u64,
}

impl Model for Sessions {
    ghost use Rattle.nfs4_session.specs.Clients.{SessionsState};

    ghost Value = { SessionsState };

    ghost use Rattle.nfs4_session.specs.Standing.{IsStanding};

    ghost view = { λ s. record { boot = s.boot; clients = s.clients.items; ids = s.ids; numbers = s.numbers } };

    ghost invariant = { λ s. IsStanding s.places.keys s.clients.items s.boot s.ids s.owners };
}

impl Sessions {
    /// No clients. The boot's number is another one after each restart of the server.
    ///
    /// # Errors
    /// `NoMemory` where memory is wanted.
    pub fn new(alloc: Global, boot: u32) -> Result<Sessions, NoMemory>
        ensures { IfOk result (λ s. s ≡ no_clients boot) }
    {
        Ok(Sessions {
            alloc,
            boot,
            places: IndexSet::new(alloc),
            clients: Vec::new(alloc),
            owners: 0,
            ids: 0,
            numbers: 0,
        })
    }

    /// The records, in order of arrival.
    pub(crate) fn clients(&self) -> &[ClientRecord]
        ensures { result.now ≡ self.now.clients }
    {
        &self.clients
    }

    /// The place of a client's record, from 0.
    pub(crate) fn place(&self, client: u64) -> Option<usize>
        ensures { result ≡ position (has_id client) self.now.clients }
    {
        self.places.get_index_of(&client)
    }

    /// A client's record.
    pub(crate) fn record(&self, client: u64) -> Option<&ClientRecord>
        ensures { option_copied result ≡ find (has_id client) self.now.clients }
    {
        match self.place(client) {
            Some(place) => Some(&self.clients[place]),
            None => None,
        }
    }

    /// How many owners have a record.
    pub(crate) fn known_owners(&self) -> usize
        ensures { result ≡ known_owners self.now.clients }
    {
        self.owners
    }

    /// All numbers of clients are given.
    pub(crate) fn are_ids_spent(&self) -> bool
        ensures exact { result ≡ ids_are_spent self.now }
        ensures spare { OnFalse result (self.now.ids + 1 < 2 ^ 32) }
    {
        self.ids == u32::MAX
    }

    /// All numbers of sessions are given.
    pub(crate) fn are_numbers_spent(&self) -> bool
        ensures exact { result ≡ numbers_are_spent self.now }
        ensures spare { OnFalse result (self.now.numbers + 1 < 2 ^ 64) }
    {
        self.numbers == u64::MAX
    }

    /// How many numbers of sessions are given.
    pub(crate) fn numbers(&self) -> u64
        ensures { result ≡ self.now.numbers }
    {
        self.numbers
    }

    /// The allocator.
    pub(crate) fn alloc(&self) -> Global {
        self.alloc
    }

    /// Changes a client's record.
    pub(crate) fn change(&mut self, client: u64, change: Change<'_>)
        ensures { self.new ≡ with_clients self.old (change_first (has_id client) (changed change.entry) self.old.clients) }
    {
        let Some(place) = self.place(client) else {
            return;
        };
        let record = &mut self.clients[place];
        record.change(change);
    }

    /// Puts a new session to a client's record. At an error nothing has changed.
    pub(crate) fn add_session(
        &mut self,
        client: u64,
        session: Session,
        now: u64,
    ) -> Result<(), NoMemory>
        ensures ok { OnOk result (self.new ≡ with_clients self.old (change_first (has_id client) (with_new_session session now) self.old.clients)) }
        ensures err { OnErr result (self.new ≡ self.old) }
    {
        let Some(place) = self.place(client) else {
            return Ok(());
        };
        let record = &mut self.clients[place];
        record.add(session, now)
    }

    /// The next number of a session is given.
    pub(crate) fn count_session(&mut self)
        requires { self.old.numbers + 1 < 2 ^ 64 }
        ensures { self.new ≡ with_numbers self.old (self.old.numbers + 1) }
    {
        self.numbers += 1;
    }

    /// Puts a new record behind the others, and answers its id. At an error nothing has changed.
    pub(crate) fn add_client(
        &mut self,
        owner: &[u8],
        verifier: [u8; 8],
        now: u64,
    ) -> Result<u64, NoMemory>
        requires { self.old.ids + 1 < 2 ^ 32 }
        ensures id { IfOk result (λ id. id ≡ client_id self.old.boot (self.old.ids + 1)) }
        ensures ok { OnOk result (self.new ≡ with_new_client self.old self.old.clients (new_client self.old verifier owner.now now)) }
        ensures err { OnErr result (self.new ≡ self.old) }
    {
        let id = next_id(self.boot, self.ids);
        let record = ClientRecord::new(self.alloc, id, owner, verifier, now)?;
        let is_known = any(&self.clients, Seek::OwnedBy(owner));
        self.clients.reserve(1)?;
        self.places.insert(id)?;
        // there is room for it, so it does not fail
        self.clients.push(record)?;
        self.ids += 1;
        if !is_known {
            self.owners += 1;
        }
        Ok(id)
    }

    /// Takes out the record at a place, with its sessions.
    pub(crate) fn remove(&mut self, place: usize)
        requires { place < length self.old.clients }
        ensures { self.new ≡ with_clients self.old (remove self.old.clients place) }
    {
        let record = self.clients.remove(place);
        self.places.shift_remove_index(place);
        if !any(&self.clients, Seek::OwnedBy(record.owner())) {
            self.owners -= 1;
        }
    }

    /// Takes out a client's record, where it is there.
    pub(crate) fn forget(&mut self, client: u64)
        ensures { self.new ≡ without_client self.old client }
    {
        let Some(place) = self.place(client) else {
            return;
        };
        self.remove(place);
    }
}

/// The id of the next client.
fn next_id(boot: u32, ids: u32) -> u64
    requires { ids + 1 < 2 ^ 32 }
    ensures { result ≡ client_id boot (ids + 1) }
{
    u64::from(boot) * 4_294_967_296 + u64::from(ids) + 1
}
