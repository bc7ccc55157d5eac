//! What users ask of clients. Nothing happens where there is no client of that number.

ghost use Rattle.std.specs.Prelude.{◌≡◌, ◌≤◌, OnOk, length};
ghost use Rattle.cluster_model.specs.declared.limits.TheConstants.{PIECE_SIZE};
ghost use Rattle.client_state.specs.declared.request.UserRequest.TheVariants.{Open, Write, Through, Commit, Read, Return};
ghost use Rattle.world_rule.specs.Machines.{client_acts, is_asked, leaves, goes_astray, starts_anew, HasActed};

use crate::first::new_client;
use crate::machines::Machines;
use crate::numbers::index_of;
use cluster_model::{Entry, Outbox};
use ff_xdr::NoMemory;

impl Machines {
    /// A file of this name is to be opened, of at most 255 bytes.
    pub fn open(&mut self, client: u32, name: &str, out: &mut Outbox) -> Result<(), NoMemory>
        requires { length name.now ≤ 255 }
        ensures { OnOk result (HasActed (is_asked client (Open name.now) self.old) out.old self.new out.new) }
    {
        let Some(index) = index_of(client, self.clients.len()) else {
            return Ok(());
        };
        self.clients[index].open(name, out)
    }

    /// 1 to 65,536 bytes are to be written, to the mirrors.
    pub fn write(
        &mut self,
        client: u32,
        at: u64,
        bytes: &[u8],
        out: &mut Outbox,
    ) -> Result<(), NoMemory>
        requires some { 1 ≤ length bytes.now }
        requires few { length bytes.now ≤ PIECE_SIZE }
        ensures { OnOk result (HasActed (is_asked client (Write at bytes.now) self.old) out.old self.new out.new) }
    {
        let Some(index) = index_of(client, self.clients.len()) else {
            return Ok(());
        };
        self.clients[index].write(at, bytes, out)
    }

    /// The same, through the metadata server.
    pub fn through(
        &mut self,
        client: u32,
        at: u64,
        bytes: &[u8],
        out: &mut Outbox,
    ) -> Result<(), NoMemory>
        requires some { 1 ≤ length bytes.now }
        requires few { length bytes.now ≤ PIECE_SIZE }
        ensures { OnOk result (HasActed (is_asked client (Through at bytes.now) self.old) out.old self.new out.new) }
    {
        let Some(index) = index_of(client, self.clients.len()) else {
            return Ok(());
        };
        self.clients[index].through(at, bytes, out)
    }

    /// What was written under the layout is to be committed.
    pub fn commit(&mut self, client: u32, out: &mut Outbox) -> Result<(), NoMemory>
        ensures { OnOk result (HasActed (is_asked client Commit self.old) out.old self.new out.new) }
    {
        let Some(index) = index_of(client, self.clients.len()) else {
            return Ok(());
        };
        self.clients[index].commit(out)
    }

    /// So many bytes are to be read from this place of the file on, through the metadata server.
    pub fn read(
        &mut self,
        client: u32,
        at: u64,
        count: u32,
        out: &mut Outbox,
    ) -> Result<(), NoMemory>
        ensures { OnOk result (HasActed (is_asked client (Read at count) self.old) out.old self.new out.new) }
    {
        let Some(index) = index_of(client, self.clients.len()) else {
            return Ok(());
        };
        self.clients[index].read(at, count, out)
    }

    /// The layout is to be given back.
    pub fn return_all(&mut self, client: u32, out: &mut Outbox) -> Result<(), NoMemory>
        ensures { OnOk result (HasActed (is_asked client Return self.old) out.old self.new out.new) }
    {
        let Some(index) = index_of(client, self.clients.len()) else {
            return Ok(());
        };
        self.clients[index].return_all(out)
    }

    /// The client leaves the protocol, once.
    pub fn turn(&mut self, client: u32, out: &mut Outbox) -> Result<(), NoMemory>
        ensures { OnOk result (HasActed (client_acts client (leaves client) self.old) out.old self.new out.new) }
    {
        let Some(index) = index_of(client, self.clients.len()) else {
            return Ok(());
        };
        if self.clients[index].has_left() {
            return Ok(());
        }
        out.entries.push(Entry::Turned { client })?;
        self.clients[index].turn();
        Ok(())
    }

    /// A client that left sends a WRITE of at most 65,536 bytes to the mirror at this place of its layout, from 1.
    pub fn stray(
        &mut self,
        client: u32,
        place: u32,
        at: u64,
        bytes: &[u8],
        out: &mut Outbox,
    ) -> Result<(), NoMemory>
        requires { length bytes.now ≤ PIECE_SIZE }
        ensures { OnOk result (HasActed (client_acts client (goes_astray place at bytes.now) self.old) out.old self.new out.new) }
    {
        let Some(index) = index_of(client, self.clients.len()) else {
            return Ok(());
        };
        if !self.clients[index].has_left() {
            return Ok(());
        }
        self.clients[index].stray(place, at, bytes, out)
    }

    /// The client starts anew, with this verifier; its calls are numbered on. One that left stays as it is.
    pub fn reboot(&mut self, client: u32, verifier: u64, out: &mut Outbox) -> Result<(), NoMemory>
        ensures { OnOk result (HasActed (client_acts client (starts_anew client verifier) self.old) out.old self.new out.new) }
    {
        let Some(index) = index_of(client, self.clients.len()) else {
            return Ok(());
        };
        if self.clients[index].has_left() {
            return Ok(());
        }
        let first_xid = self.clients[index].next_xid();
        let started = new_client(self.alloc, client, verifier, first_xid)?;
        out.entries.push(Entry::Rebooted { client })?;
        self.clients[index] = started;
        Ok(())
    }
}
