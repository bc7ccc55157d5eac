//! A link over memory, with no other side that could fail.

ghost use Rattle.std.specs.Prelude.{⊤, ◌≡◌, ◌≢◌, List, [], None, Some, Ok, Err, IsOk};
ghost use Rattle.rpc_record.specs.Stream.{counted};
ghost use Rattle.node_link.specs.Link.{OpensLink, Gives, GivesReady, is_record};

use crate::link::{Arrival, Link, Opening, Role};
use cluster_model::NodeId;
use ff_xdr::{Data, NoMemory};
use node_config::Config;
use rpc_record::Failed;
use std::alloc::Global;
use std::collections::VecDeque;
use std::marker::Model;

/// A link that gives the arrivals of a `Vec` in order, is closed then, and keeps what is sent. It
/// never answers `Failed`. Clauses see it as what is still to come and what was sent.
#[derive(Drop)]
pub struct SureLink {
    opened: Option<Opening>,
    arrivals: VecDeque<Arrival>,
    sent: Vec<(NodeId, Data)>,
}

impl Model for SureLink {
    ghost use Rattle.node_link.specs.Link.{SureLinkState};

    ghost Value = { SureLinkState };

    ghost view = { λ link. record { opened = link.opened; coming = link.arrivals.items; sent = link.sent.items } };
}

/// A record came.
fn is_record(arrival: &Arrival) -> bool
    ensures { result ≡ is_record arrival.now }
{
    match arrival {
        Arrival::Record { .. } => true,
        Arrival::TimedOut { .. } => false,
        Arrival::Quiet => false,
        Arrival::Closed => false,
    }
}

impl SureLink {
    /// A link over which these come. It takes its memory from `alloc`.
    pub fn new(alloc: Global, arrivals: Vec<Arrival>) -> SureLink
        ensures { result ≡ record { opened = None; coming = arrivals.items; sent = [] } }
    {
        SureLink {
            opened: None,
            arrivals: VecDeque::from_vec(arrivals),
            sent: Vec::new(alloc),
        }
    }

    /// What was sent, in order.
    pub fn sent(&self) -> &[(NodeId, Data)]
        ensures { result.now ≡ self.now.sent }
    {
        &self.sent
    }

    /// Takes the first of those to come, where it is a record.
    pub(crate) fn take_record(&mut self) -> Option<(NodeId, Data)>
        ensures told { GivesReady (Some self.old.coming) result (Some self.new.coming) }
        ensures opened { self.new.opened ≡ self.old.opened }
        ensures sent { self.new.sent ≡ self.old.sent }
    {
        if !self.arrivals.front().is_some_and(is_record) {
            return None;
        }
        match self.arrivals.pop_front() {
            Some(Arrival::Record { from, bytes }) => Some((from, bytes)),
            _ => None,
        }
    }
}

impl Link for SureLink {
    ghost faults = { λ _. 0 };

    ghost opened = { λ link. link.opened };

    ghost coming = { λ link. Some link.coming };

    ghost sent = { λ link. Some link.sent };

    ghost has_given = { λ _. ⊤ };

    fn open(&mut self, config: &Config, role: Role) -> Result<(), Failed>
        ensures opened { OpensLink self.old.opened config.now role result self.new.opened }
        ensures coming { Some self.new.coming ≡ Some self.old.coming }
        ensures sent { Some self.new.sent ≡ Some self.old.sent }
        ensures faults { 0 ≡ counted result 0 }
        ensures sure { result ≡ Ok tt }
    {
        self.opened = Some(Opening::of(config, role));
        Ok(())
    }

    fn next(&mut self) -> Result<Arrival, Failed>
        ensures told { Gives (Some self.old.coming) result (Some self.new.coming) }
        ensures opened { self.new.opened ≡ self.old.opened }
        ensures sent { Some self.new.sent ≡ Some self.old.sent }
        ensures faults { 0 ≡ counted result 0 }
        ensures sure { IsOk result }
    {
        Ok(self.arrivals.pop_front().unwrap_or(Arrival::Closed))
    }

    /// None: each is waited for.
    fn ready(&mut self) -> Option<(NodeId, Data)>
        ensures told { GivesReady (Some self.old.coming) result (Some self.new.coming) }
        ensures opened { self.new.opened ≡ self.old.opened }
        ensures sent { Some self.new.sent ≡ Some self.old.sent }
        ensures none { result ≡ None }
    {
        None
    }

    fn send(&mut self, to: NodeId, message: Data) -> Result<(), NoMemory> {
        self.sent.push((to, message))?;
        Ok(())
    }

    fn excuse(&mut self, _from: NodeId) {}

    fn finish(&mut self) {}
}
