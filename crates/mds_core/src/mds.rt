//! A metadata server.

ghost use Rattle.std.specs.Prelude.{◌≡◌, ◌≤◌, true, false, [], ◌++◌, length, IfOk, OnOk, OnErr, option_map};
ghost use Rattle.node_config.specs.Configs.{config_value};
ghost use Rattle.node_config.specs.declared.config.TheConstants.{MAX_MIRRORS, MAX_SERVERS};
ghost use Rattle.mds_rule.specs.MdsStates.{served};
ghost use Rattle.mds_rule.specs.Events.{takes_record, takes_timeout, takes_tick, takes_recall, takes_resilver};
ghost use Rattle.mds_core.specs.MdsSteps.{fresh_server, MdsStepsBy};

use crate::asks::{recall, resilver};
use crate::receive::receive;
use crate::ticks::tick;
use crate::timeouts::time_out;
use cluster_model::{FileId, Mirrors, NodeId, Outbox};
use device_addr::NetAddr;
use ff_xdr::NoMemory;
use mds_state::{ServerList, State};
use node_config::Config;
use outbox_steps::hand_all;
use std::alloc::Global;
use std::marker::Model;

/// The metadata server of a cluster. What a step puts out goes behind what the Outbox has. A server that answered `NoMemory` is
/// spent: each later call answers it again, and the Outbox stands as before the step.
#[derive(Drop)]
pub struct Mds {
    state: State,
    is_spent: bool,
}

impl Model for Mds {
    ghost use Rattle.mds_core.specs.MdsSteps.{ServerValue};

    ghost Value = { ServerValue };

    ghost view = { λ s. record { mds = s.state; is_spent = s.is_spent } };
}

impl Mds {
    /// A new one, of a cluster with 1 to 16 data servers, of which each file is to have 1 to 4: no clients and no files. Takes memory.
    pub fn new(alloc: Global, config: &Config) -> Result<Mds, NoMemory>
        requires mirrored { 1 ≤ config.now.mirrors }
        requires few { config.now.mirrors ≤ MAX_MIRRORS }
        requires within { config.now.mirrors ≤ length config.now.servers.items }
        requires servers { length config.now.servers.items ≤ MAX_SERVERS }
        ensures { IfOk result (λ mds. mds ≡ fresh_server (config_value config.now)) }
    {
        let servers = Vec::from_slice(alloc, config.servers.as_slice())?;
        let state = State::new(alloc, ServerList::new(servers, config.mirrors))?;
        Ok(Mds {
            state,
            is_spent: false,
        })
    }

    /// The live mirrors of a file, where there is such a file.
    pub fn live(&self, file: FileId) -> Option<Mirrors>
        ensures { result ≡ option_map (λ s. s.file.layout.live) (served self.now.mds file) }
    {
        match self.state.files.get(file) {
            Some(served) => Some(served.state().live()),
            None => None,
        }
    }

    /// Begins a step. The server counts as spent until the step has ended, so that an error on the way leaves it so.
    fn begin(&mut self) -> Result<Outbox, NoMemory>
        ensures was { OnOk result (self.old.is_spent ≡ false) }
        ensures entries { IfOk result (λ own. own.entries.items ≡ []) }
        ensures sends { IfOk result (λ own. own.sends.items ≡ []) }
        ensures mds { self.new.mds ≡ self.old.mds }
        ensures is { self.new.is_spent ≡ true }
    {
        if self.is_spent {
            return Err(NoMemory);
        }
        self.is_spent = true;
        Ok(Outbox::new(self.state.alloc))
    }

    /// Ends a step, which put this out.
    fn end(&mut self, own: Outbox, out: &mut Outbox) -> Result<(), NoMemory>
        requires { self.old.is_spent ≡ true }
        ensures mds { self.new.mds ≡ self.old.mds }
        ensures is { OnOk result (self.new.is_spent ≡ false) }
        ensures spent { OnErr result (self.new.is_spent ≡ true) }
        ensures entries { OnOk result (out.new.entries.items ≡ out.old.entries.items ++ own.entries.items) }
        ensures sends { OnOk result (out.new.sends.items ≡ out.old.sends.items ++ own.sends.items) }
        ensures no_entries { OnErr result (out.new.entries.items ≡ out.old.entries.items) }
        ensures no_sends { OnErr result (out.new.sends.items ≡ out.old.sends.items) }
    {
        hand_all(own, out)?;
        self.is_spent = false;
        Ok(())
    }

    /// A record came from a node, at `now`, in seconds: a compound to be run, an answer to a call, or what is refused or passed
    /// over (RFC 5531, section 9; RFC 8881, section 16.2).
    pub fn on_record(
        &mut self,
        from: NodeId,
        message: &[u8],
        now: u64,
        out: &mut Outbox,
    ) -> Result<(), NoMemory>
        ensures { MdsStepsBy (λ m. takes_record now m from message.now) self.old out.old result self.new out.new }
    {
        let mut own = self.begin()?;
        receive(&mut self.state, from, message, now, &mut own)?;
        self.end(own, out)
    }

    /// A call to this node timed out, at `now`, in seconds: the one of the number `xid`, where one is given, or else the one that was
    /// sent first, of those that are waited for. Nothing happens where there is none, and where the call of that number to that node is
    /// not waited for.
    pub fn on_timeout(
        &mut self,
        to: NodeId,
        xid: Option<u32>,
        now: u64,
        out: &mut Outbox,
    ) -> Result<(), NoMemory>
        ensures { MdsStepsBy (λ m. takes_timeout now m to xid) self.old out.old result self.new out.new }
    {
        let mut own = self.begin()?;
        time_out(&mut self.state, to, xid, now, &mut own)?;
        self.end(own, out)
    }

    /// Time passed; it is `now`, in seconds. Leases and recalls end, what waited for the tick is asked again, and calls that nobody
    /// waits for are forgotten.
    pub fn tick(&mut self, now: u64, out: &mut Outbox) -> Result<(), NoMemory>
        ensures { MdsStepsBy (takes_tick now) self.old out.old result self.new out.new }
    {
        let mut own = self.begin()?;
        tick(&mut self.state, now, &mut own)?;
        self.end(own, out)
    }

    /// The layout that a client has of a file is asked back, at `now`, in seconds; nothing happens where no client has it, or it is
    /// asked back already.
    pub fn recall(&mut self, file: FileId, now: u64, out: &mut Outbox) -> Result<(), NoMemory>
        ensures { MdsStepsBy (λ m. takes_recall now m file) self.old out.old result self.new out.new }
    {
        let mut own = self.begin()?;
        recall(&mut self.state, file, now, &mut own)?;
        self.end(own, out)
    }

    /// A file gets the mirrors that it lacks; nothing happens where it lacks none, or its phase does not allow it.
    pub fn resilver(&mut self, file: FileId, out: &mut Outbox) -> Result<(), NoMemory>
        ensures { MdsStepsBy (λ m. takes_resilver m file) self.old out.old result self.new out.new }
    {
        let mut own = self.begin()?;
        resilver(&mut self.state, file, &mut own)?;
        self.end(own, out)
    }
}
