//! What all clients have open.

ghost use Rattle.std.specs.Prelude.{◌≡◌, [], ◌∷◌, ◌++◌, map, filter, find, not, is_some, length, None, OnOk, OnErr};
ghost use Rattle.open_state.specs.Opens.{Opens as OpensFile, ClosesOpen, ended, open_of, open_fault, fault_at, opens_of, opens_in, put_opens, set_opens, is_of, is_other, in_place};

use crate::client_opens::ClientOpens;
use crate::open::{LAST_NUMBER, MAX_OPENS, Open, OpenFault};
use cluster_model::FileId;
use ff_xdr::NoMemory;
use indexmap::IndexMap;
use std::alloc::Global;
use std::marker::Model;

/// What clients have open at the metadata server (RFC 8881, sections 8.2.1, 18.2 and 18.16): at most `MAX_OPENS` files a
/// client, each once. A number is never given twice. A call costs by the opens of its one client, but for the client's end.
#[derive(Drop)]
pub struct Opens {
    clients: IndexMap<u64, ClientOpens>,
    last: u32,
}

impl Model for Opens {
    ghost use Rattle.open_state.specs.Opens.{OpensValue};

    ghost Value = { OpensValue };

    ghost view = { λ s. record { clients = s.clients.entries; last = s.last } };
}

impl Opens {
    /// Nothing is open. Takes no memory.
    pub fn new(alloc: Global) -> Opens
        ensures { result ≡ record { clients = []; last = 0 } }
    {
        Opens {
            clients: IndexMap::new(alloc),
            last: 0,
        }
    }

    /// An OPEN of this file by this client: one that it has open is open once more as the same, with the next seqid; else it
    /// gets a number of its own, and seqid 1.
    ///
    /// # Errors
    /// `TooMany` where the client has `MAX_OPENS` others open, else `Spent` where the last number was given; `NoMemory` where
    /// memory is wanted. Nothing has changed then.
    pub fn open(&mut self, client: u64, file: FileId) -> Result<Open, OpenFault>
        ensures { OpensFile self.old client file result self.new }
    {
        if let Some(was) = sought(&self.clients, client, file) {
            let again = was.again();
            replace(&mut self.clients, client, again);
            return Ok(again);
        }
        if count(&self.clients, client) >= MAX_OPENS {
            return Err(OpenFault::TooMany);
        }
        if self.last == LAST_NUMBER {
            return Err(OpenFault::Spent);
        }
        let number = self.last + 1;
        let open = Open {
            file,
            number,
            seqid: 1,
        };
        // by hand, since no clause says which error `?` makes of it
        if let Err(e) = add(&mut self.clients, client, open) {
            return Err(OpenFault::NoMemory(e));
        }
        self.last = number;
        Ok(open)
    }

    /// An OPEN of this file by this client is not refused, but for want of memory.
    pub fn can_open(&self, client: u64, file: FileId) -> bool
        ensures { result ≡ not (is_some (open_fault self.now client file)) }
    {
        if sought(&self.clients, client, file).is_some() {
            return true;
        }
        count(&self.clients, client) < MAX_OPENS && self.last != LAST_NUMBER
    }

    /// An OPEN by this client of a file that it does not have open is not refused, but for want of memory.
    pub fn has_room(&self, client: u64) -> bool
        ensures { result ≡ not (is_some (fault_at None (length (opens_of self.now client)) self.now.last)) }
    {
        count(&self.clients, client) < MAX_OPENS && self.last != LAST_NUMBER
    }

    /// A client's open of a file.
    pub fn open_of(&self, client: u64, file: FileId) -> Option<Open>
        ensures { result ≡ open_of self.now client file }
    {
        sought(&self.clients, client, file)
    }

    /// A CLOSE of this file by this client: its open ends, and is given with its next seqid; `None` where it has none. A client
    /// that has closed its last file keeps its place among the others. Takes no memory.
    pub fn close(&mut self, client: u64, file: FileId) -> Option<Open>
        ensures { ClosesOpen self.old client file result self.new }
    {
        let was = sought(&self.clients, client, file)?;
        remove(&mut self.clients, client, file);
        Some(was.again())
    }

    /// The client is gone, and what it had open with it; the others keep their order, so it costs by the number of clients.
    /// Takes no memory.
    pub fn end(&mut self, client: u64)
        ensures { self.new ≡ ended self.old client }
    {
        self.clients.shift_remove(&client);
    }
}

/// How many files a client has open.
fn count(clients: &IndexMap<u64, ClientOpens>, client: u64) -> usize
    ensures { result ≡ length (opens_in clients.now.entries client) }
{
    match clients.get(&client) {
        Some(opens) => opens.len(),
        None => 0,
    }
}

/// A client's open of a file.
fn sought(clients: &IndexMap<u64, ClientOpens>, client: u64, file: FileId) -> Option<Open>
    ensures { result ≡ find (is_of file) (opens_in clients.now.entries client) }
{
    clients.get(&client)?.find(file)
}

/// A client has one more open. At an error nothing has changed.
fn add(clients: &mut IndexMap<u64, ClientOpens>, client: u64, newest: Open) -> Result<(), NoMemory>
    ensures ok { OnOk result (clients.new.entries ≡ put_opens client (opens_in clients.old.entries client ++ newest ∷ []) clients.old.entries) }
    ensures err { OnErr result (clients.new.entries ≡ clients.old.entries) }
{
    if let Some(opens) = clients.get_mut(&client) {
        return opens.push(newest);
    }
    let opens = ClientOpens::of(newest, *clients.allocator())?;
    clients.insert(client, opens)?;
    Ok(())
}

/// A client's open stands where one of its file stood.
fn replace(clients: &mut IndexMap<u64, ClientOpens>, client: u64, given: Open)
    ensures { clients.new.entries ≡ set_opens client (map (in_place given) (opens_in clients.old.entries client)) clients.old.entries }
{
    if let Some(opens) = clients.get_mut(&client) {
        opens.replace(given);
    }
}

/// A client's open of a file is gone.
fn remove(clients: &mut IndexMap<u64, ClientOpens>, client: u64, file: FileId)
    ensures { clients.new.entries ≡ set_opens client (filter (is_other file) (opens_in clients.old.entries client)) clients.old.entries }
{
    if let Some(opens) = clients.get_mut(&client) {
        opens.remove(file);
    }
}
