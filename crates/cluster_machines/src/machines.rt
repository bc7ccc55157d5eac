//! The machines, and what comes to them.

ghost use Rattle.std.specs.Prelude.{◌≡◌, ◌≤◌, IfOk, OnOk, option_copied, option_map, length};
ghost use Rattle.node_config.specs.declared.config.TheConstants.{MAX_SERVERS, MAX_MIRRORS, MAX_NUMBER};
ghost use Rattle.mds_rule.specs.Events.{takes_tick, takes_recall, takes_resilver};
ghost use Rattle.mirror_client.specs.ClientRule.{client_recorded, client_timed_out, client_ticked};
ghost use Rattle.world_rule.specs.Machines.{new_machines, nth, mds_acts, client_acts, server_acts, receives, times_out, HasActed};

use crate::first::{new_clients, new_config, new_servers};
use crate::numbers::index_of;
use cluster_model::{FileId, NodeId, Outbox};
use ds_files::DataServer;
use ff_xdr::NoMemory;
use mds_core::Mds;
use mirror_client::Client;
use std::alloc::Global;
use std::marker::Model;

/// The machines of a cluster: its metadata server, and data servers and clients by their numbers from 1. Each call is one
/// machine's part of an event; what it enters and sends goes behind what the Outbox has. After `NoMemory` they are not to be
/// used again.
#[derive(Drop)]
pub struct Machines {
    pub(crate) alloc: Global,
    pub(crate) mds: Mds,
    pub(crate) servers: Vec<DataServer>,
    pub(crate) clients: Vec<Client>,
}

impl Model for Machines {
    ghost use Rattle.std.specs.Prelude.{◌≤◌, map, length};
    ghost use Rattle.node_config.specs.declared.config.TheConstants.{MAX_NUMBER};
    ghost use Rattle.world_rule.specs.Machines.{MachinesValue};

    ghost Value = { MachinesValue };

    ghost view = { λ m. record { mds = m.mds.mds; servers = m.servers.items; clients = map (λ c. c.client) m.clients.items } };

    ghost invariant = { λ m. length m.clients.items ≤ MAX_NUMBER };
}

impl Machines {
    /// The machines of a cluster, all new: 1 to 16 data servers, of which each file is to have 1 to 4 and no more than there are,
    /// and up to 256 clients. Takes memory.
    pub fn new(
        alloc: Global,
        servers: u32,
        mirrors: u32,
        clients: u32,
    ) -> Result<Machines, NoMemory>
        requires mirrored { 1 ≤ mirrors }
        requires few { mirrors ≤ MAX_MIRRORS }
        requires within { mirrors ≤ servers }
        requires servers { servers ≤ MAX_SERVERS }
        requires clients { clients ≤ MAX_NUMBER }
        ensures { IfOk result (λ machines. machines ≡ new_machines servers mirrors clients) }
    {
        let config = new_config(alloc, servers, mirrors)?;
        Ok(Machines {
            alloc,
            mds: Mds::new(alloc, &config)?,
            servers: new_servers(alloc, servers)?,
            clients: new_clients(alloc, clients)?,
        })
    }

    /// The metadata server.
    pub fn mds(&self) -> &Mds
        ensures { result.now.mds ≡ self.now.mds }
    {
        &self.mds
    }

    /// The data server of a number.
    pub fn server(&self, number: u32) -> Option<&DataServer>
        ensures { option_copied result ≡ nth self.now.servers number }
    {
        if number == 0 {
            return None;
        }
        self.servers.get(number as usize - 1)
    }

    /// The client of a number.
    pub fn client(&self, number: u32) -> Option<&Client>
        ensures { option_map (λ c. c.now.client) result ≡ nth self.now.clients number }
    {
        if number == 0 {
            return None;
        }
        self.clients.get(number as usize - 1)
    }

    /// How many clients there are.
    pub fn client_count(&self) -> u32
        ensures count { result ≡ length self.now.clients }
        ensures few { result ≤ MAX_NUMBER }
    {
        self.clients.len() as u32
    }

    /// A record from a machine comes to a data server.
    fn server_receives(
        &mut self,
        number: u32,
        from: NodeId,
        message: &[u8],
        out: &mut Outbox,
    ) -> Result<(), NoMemory>
        ensures { OnOk result (HasActed (server_acts number from message.now self.old) out.old self.new out.new) }
    {
        let Some(index) = index_of(number, self.servers.len()) else {
            return Ok(());
        };
        self.servers[index].on_record(from, message, out)
    }

    /// A record from a machine comes to a client, at `now`, in seconds.
    fn client_receives(
        &mut self,
        number: u32,
        from: NodeId,
        message: &[u8],
        now: u64,
        out: &mut Outbox,
    ) -> Result<(), NoMemory>
        ensures { OnOk result (HasActed (client_acts number (client_recorded from message.now now) self.old) out.old self.new out.new) }
    {
        let Some(index) = index_of(number, self.clients.len()) else {
            return Ok(());
        };
        self.clients[index].on_record(from, message, now, out)
    }

    /// The call of a client to a machine times out.
    fn client_times_out(
        &mut self,
        number: u32,
        to: NodeId,
        out: &mut Outbox,
    ) -> Result<(), NoMemory>
        ensures { OnOk result (HasActed (client_acts number (client_timed_out to) self.old) out.old self.new out.new) }
    {
        let Some(index) = index_of(number, self.clients.len()) else {
            return Ok(());
        };
        self.clients[index].on_timeout(to, None, out)
    }

    /// A record from one machine comes to another, at `now`, in seconds; nothing happens where that is none of these.
    pub fn receive(
        &mut self,
        from: NodeId,
        to: NodeId,
        message: &[u8],
        now: u64,
        out: &mut Outbox,
    ) -> Result<(), NoMemory>
        ensures { OnOk result (HasActed (receives now from to message.now self.old) out.old self.new out.new) }
    {
        match to {
            NodeId::Mds => self.mds.on_record(from, message, now, out),
            NodeId::Server(number) => self.server_receives(number, from, message, out),
            NodeId::Client(number) => self.client_receives(number, from, message, now, out),
        }
    }

    /// The call of a machine to another that was sent first times out, at `now`; nothing happens where there is none.
    pub fn time_out(
        &mut self,
        node: NodeId,
        to: NodeId,
        now: u64,
        out: &mut Outbox,
    ) -> Result<(), NoMemory>
        ensures { OnOk result (HasActed (times_out now node to self.old) out.old self.new out.new) }
    {
        match node {
            NodeId::Mds => self.mds.on_timeout(to, None, now, out),
            NodeId::Server(_) => Ok(()),
            NodeId::Client(number) => self.client_times_out(number, to, out),
        }
    }

    /// Time passed for a client; it is `now`.
    pub fn tick_client(&mut self, number: u32, now: u64, out: &mut Outbox) -> Result<(), NoMemory>
        ensures { OnOk result (HasActed (client_acts number (client_ticked now) self.old) out.old self.new out.new) }
    {
        let Some(index) = index_of(number, self.clients.len()) else {
            return Ok(());
        };
        self.clients[index].tick(now, out)
    }

    /// Time passed for the metadata server; it is `now`.
    pub fn tick_mds(&mut self, now: u64, out: &mut Outbox) -> Result<(), NoMemory>
        ensures { OnOk result (HasActed (mds_acts (takes_tick now) self.old) out.old self.new out.new) }
    {
        self.mds.tick(now, out)
    }

    /// The layout of a file is to be recalled.
    pub fn recall(&mut self, file: FileId, now: u64, out: &mut Outbox) -> Result<(), NoMemory>
        ensures { OnOk result (HasActed (mds_acts (λ s. takes_recall now s file) self.old) out.old self.new out.new) }
    {
        self.mds.recall(file, now, out)
    }

    /// Mirrors are to be added to a file.
    pub fn resilver(&mut self, file: FileId, out: &mut Outbox) -> Result<(), NoMemory>
        ensures { OnOk result (HasActed (mds_acts (λ s. takes_resilver s file) self.old) out.old self.new out.new) }
    {
        self.mds.resilver(file, out)
    }
}
