//! A link over memory, in which chosen calls fail.

ghost use Rattle.std.specs.Prelude.{⊤, ◌≡◌, ◌↔◌, List, [], None, Some, Ok, Err, false, true, IsTrue, IsOk, if◌then◌else◌};
ghost use Rattle.rpc_record.specs.Stream.{counted, one_more, fails_next};
ghost use Rattle.node_link.specs.Link.{OpensLink, Gives, GivesReady, HandsOver};

use crate::link::{Arrival, Link, Role};
use crate::sure_link::SureLink;
use cluster_model::NodeId;
use ff_xdr::{Data, NoMemory};
use node_config::Config;
use rpc_record::Failed;
use std::alloc::Global;
use std::marker::Model;

/// Which calls are to fail, and how many were made and have failed.
#[derive(Drop)]
struct Schedule {
    failing: Vec<u64>,
    calls: u64,
    faults: u64,
}

impl Schedule {
    /// Begins the next call, which fails if its number is on the list.
    fn begin_call(&mut self) -> Result<(), Failed>
        ensures fails { result ≡ (if fails_next self.old.failing.items self.old.calls then Err Failed.Fault else Ok tt) }
        ensures failing { self.new.failing ≡ self.old.failing }
        ensures calls { self.new.calls ≡ one_more self.old.calls }
        ensures faults { self.new.faults ≡ counted result self.old.faults }
    {
        let fails = self.fails_next();
        self.calls = self.calls.saturating_add(1);
        if fails {
            self.faults = self.faults.saturating_add(1);
            return Err(Failed::Fault);
        }
        Ok(())
    }

    fn fails_next(&self) -> bool
        ensures { result ≡ fails_next self.now.failing.items self.now.calls }
    {
        self.calls < u64::MAX && self.failing.contains(&(self.calls + 1))
    }
}

/// A link that gives the arrivals of a `Vec` in order, is closed then, and keeps what is sent, in
/// which chosen calls fail.
#[derive(Drop)]
pub struct MemoryLink {
    link: SureLink,
    schedule: Schedule,
    is_at_once: bool,
}

impl Model for MemoryLink {
    ghost use Rattle.node_link.specs.Link.{MemoryLinkState};

    ghost Value = { MemoryLinkState };

    ghost view = { λ memory. record {
      opened = memory.link.opened;
      coming = memory.link.coming;
      sent = memory.link.sent;
      failing = memory.schedule.failing.items;
      calls = memory.schedule.calls;
      faults = memory.schedule.faults;
      is_at_once = memory.is_at_once;
    } };
}

impl MemoryLink {
    /// A link over which these come. It takes its memory from `alloc`. `failing` are the numbers, from
    /// 1, of the calls of `open` and `next` together that answer `Failed::Fault` and do nothing. Each arrival is waited
    /// for.
    pub fn new(alloc: Global, arrivals: Vec<Arrival>, failing: Vec<u64>) -> MemoryLink
        ensures { result ≡ record { opened = None; coming = arrivals.items; sent = []; failing = failing.items; calls = 0; faults = 0; is_at_once = false } }
    {
        MemoryLink {
            link: SureLink::new(alloc, arrivals),
            schedule: Schedule {
                failing,
                calls: 0,
                faults: 0,
            },
            is_at_once: false,
        }
    }

    /// The same, with all records that are still to come there already: none is waited for.
    pub fn at_once(self) -> MemoryLink
        ensures { result ≡ record self { is_at_once = true } }
    {
        MemoryLink {
            link: self.link,
            schedule: self.schedule,
            is_at_once: true,
        }
    }

    /// What was sent, in order.
    pub fn sent(&self) -> &[(NodeId, Data)]
        ensures { result.now ≡ self.now.sent }
    {
        self.link.sent()
    }

    /// How many calls have failed.
    pub fn faults(&self) -> u64
        ensures { result ≡ self.now.faults }
    {
        self.schedule.faults
    }
}

impl Link for MemoryLink {
    ghost faults = { λ memory. memory.faults };

    ghost opened = { λ memory. memory.opened };

    ghost coming = { λ memory. Some memory.coming };

    ghost sent = { λ memory. Some memory.sent };

    ghost has_given = { λ _. ⊤ };

    /// Fails where the call's number is on the list.
    fn open(&mut self, config: &Config, role: Role) -> Result<(), Failed>
        ensures opened { OpensLink self.old.opened config.now role result self.new.opened }
        ensures coming { Some self.new.coming ≡ Some self.old.coming }
        ensures sent { Some self.new.sent ≡ Some self.old.sent }
        ensures faults { self.new.faults ≡ counted result self.old.faults }
        ensures fails { result ≡ (if fails_next self.old.failing self.old.calls then Err Failed.Fault else Ok tt) }
        ensures failing { self.new.failing ≡ self.old.failing }
        ensures calls { self.new.calls ≡ one_more self.old.calls }
    {
        self.schedule.begin_call()?;
        self.link.open(config, role)
    }

    /// Fails where the call's number is on the list.
    fn next(&mut self) -> Result<Arrival, Failed>
        ensures told { Gives (Some self.old.coming) result (Some self.new.coming) }
        ensures opened { self.new.opened ≡ self.old.opened }
        ensures sent { Some self.new.sent ≡ Some self.old.sent }
        ensures faults { self.new.faults ≡ counted result self.old.faults }
        ensures fails { IsTrue (fails_next self.old.failing self.old.calls) ↔ (result ≡ Err Failed.Fault) }
        ensures failing { self.new.failing ≡ self.old.failing }
        ensures calls { self.new.calls ≡ one_more self.old.calls }
        ensures at_once { self.new.is_at_once ≡ self.old.is_at_once }
    {
        self.schedule.begin_call()?;
        self.link.next()
    }

    /// Fails never, and counts as no call.
    fn ready(&mut self) -> Option<(NodeId, Data)>
        ensures told { GivesReady (Some self.old.coming) result (Some self.new.coming) }
        ensures opened { self.new.opened ≡ self.old.opened }
        ensures sent { Some self.new.sent ≡ Some self.old.sent }
        ensures faults { self.new.faults ≡ self.old.faults }
        ensures waits { self.old.is_at_once ≡ false → result ≡ None }
        ensures failing { self.new.failing ≡ self.old.failing }
        ensures calls { self.new.calls ≡ self.old.calls }
        ensures at_once { self.new.is_at_once ≡ self.old.is_at_once }
    {
        if !self.is_at_once {
            return None;
        }
        self.link.take_record()
    }

    fn send(&mut self, to: NodeId, message: Data) -> Result<(), NoMemory>
        ensures told { HandsOver (Some self.old.sent) to message result (Some self.new.sent) }
        ensures opened { self.new.opened ≡ self.old.opened }
        ensures coming { Some self.new.coming ≡ Some self.old.coming }
        ensures faults { self.new.faults ≡ self.old.faults }
        ensures failing { self.new.failing ≡ self.old.failing }
        ensures calls { self.new.calls ≡ self.old.calls }
    {
        self.link.send(to, message)
    }

    fn excuse(&mut self, _from: NodeId)
        ensures { self.new ≡ self.old }
    {}

    fn finish(&mut self)
        ensures given { ⊤ }
        ensures same { self.new ≡ self.old }
    {}
}
