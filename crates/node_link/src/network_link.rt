//! The link of a node over a network.

ghost use Rattle.std.specs.Prelude.{◌≡◌, None, OnOk, OnErr, MatchOption};
ghost use Rattle.record_link.specs.Messages.{is_call_record};
ghost use Rattle.record_server.specs.Server.{SendsRecord};
ghost use Rattle.rpc_record.specs.Stream.{counted, one_more};
ghost use Rattle.node_link.specs.Callees.{AreSame, callee_in};
ghost use Rattle.waiting_calls.specs.LinkCalls.{call_over};
ghost use Rattle.waiting_calls.specs.LinkMoves.{RecordComesIn, DoesMove, CallIsGivenUp};
ghost use Rattle.node_link.specs.Silence.{is_silence_over, behind_pause, behind_timeout};
ghost use Rattle.node_link.specs.NodeLinks.{EndsWait, ExcusesFrom, FinishesLink, GivesArrival, GivesOneReady, GivesUp, CallGoesOutIf, HasGivenIn, LinkState, OpensNetwork, ReachesOr, SendsMadeOr, SendsTo, wait_end};
ghost use Rattle.node_link.specs.Link.{OpensLink};

use crate::callees::Callees;
use crate::link::{Arrival, Link, Opening, Role, address_numbered};
use crate::silence::{Silence, first_pause};
use cluster_model::NodeId;
use device_addr::NetAddr;
use ff_xdr::{Data, NoMemory};
use node_config::Config;
use record_link::is_call_record;
use record_server::{Host, Network, RecordServer};
use rpc_record::Failed;
use std::alloc::Global;
use std::marker::Model;
use waiting_calls::{LinkCall, LinkCalls, replied_number};

/// The link of a node over a network. A connection that was accepted is the node `Client(k)`, with k its number
/// from 1. To the metadata server and to data servers it makes a connection when one is first called, keeps
/// it, and makes it anew where it is gone. Each call that went out is answered, or given up under its own
/// number; what becomes of connections changes nothing of that. It tells nothing of what comes and of what is
/// sent.
#[derive(Drop)]
pub struct NodeLink<H: Host> {
    alloc: Global,
    host: H,
    opened: Option<Opening>,
    // where the metadata server and the data servers listen
    mds: Option<NetAddr>,
    servers: Vec<NetAddr>,
    server: Option<RecordServer<H::Net>>,
    callees: Callees,
    calls: LinkCalls,
    silence: Silence,
    faults: u64,
}

impl<H: Host> Model for NodeLink<H> {
    ghost use Rattle.node_link.specs.NodeLinks.{LinkState};

    ghost Value = { LinkState };

    ghost view = { λ l. record {
      opened = l.opened;
      mds = l.mds;
      servers = l.servers.items;
      server = l.server;
      callees = l.callees;
      calls = l.calls;
      silence = l.silence;
      faults = l.faults;
    } };
}

impl<H: Host + Drop> NodeLink<H> {
    /// A link that is not open; takes no memory.
    pub fn new(alloc: Global, host: H) -> NodeLink<H>
        ensures opened { result.opened ≡ None }
        ensures server { result.server ≡ None }
        ensures faults { result.faults ≡ 0 }
    {
        NodeLink {
            alloc,
            host,
            opened: None,
            mds: None,
            servers: Vec::new(alloc),
            server: None,
            callees: Callees::new(alloc),
            calls: LinkCalls::new(alloc),
            silence: Silence::new(None),
            faults: 0,
        }
    }

    /// Its connections, where it is open.
    pub fn server(&self) -> Option<&RecordServer<H::Net>>
        ensures { MatchOption result (self.now.server ≡ None) (λ server. self.now.server ≡ Some server.now) }
    {
        self.server.as_ref()
    }

    /// Counts a fault.
    fn fault(&mut self) -> Failed
        ensures result { result ≡ Failed.Fault }
        ensures counted { self.new ≡ record self.old { faults = one_more self.old.faults } }
    {
        self.faults = self.faults.saturating_add(1);
        Failed::Fault
    }
}

/// Sends a call to a node that has no open connection: one is made to its address, or the call is lost.
fn reach<N: Network + Drop>(
    server: &mut RecordServer<N>,
    callees: &mut Callees,
    node: NodeId,
    address: Option<NetAddr>,
    message: Data,
) -> Result<(), NoMemory>
    ensures { ReachesOr node address message server.old callees.old result server.new callees.new }
{
    let Some(address) = address else {
        return Ok(());
    };
    match server.connect(address)? {
        Some(number) => {
            callees.put(node, number)?;
            server.send(number, message)
        }
        None => Ok(()),
    }
}

/// Sends a message to a node to which connections are made, at its address: on the one that is open, or on
/// a new one, if it is a call.
fn send_made<N: Network + Drop>(
    server: &mut RecordServer<N>,
    callees: &mut Callees,
    node: NodeId,
    address: Option<NetAddr>,
    message: Data,
) -> Result<(), NoMemory>
    ensures { SendsMadeOr node address message server.old callees.old result server.new callees.new }
{
    let number = callees.get(node);
    if server.is_open(number) {
        server.send(number, message)
    } else if is_call_record(message.bytes()) {
        reach(server, callees, node, address, message)
    } else {
        Ok(())
    }
}

/// A call waits from now on, where this record that goes to a node is one. At an error nothing has changed.
fn go_out(calls: &mut LinkCalls, node: NodeId, message: &[u8], now: u64) -> Result<(), NoMemory>
    ensures goes { OnOk result (CallGoesOutIf (is_call_record message.now) now node message.now calls.old calls.new) }
    ensures unchanged { OnErr result (calls.new ≡ calls.old) }
{
    if is_call_record(message) {
        calls.go_out(LinkCall::new(node, message, now), now)
    } else {
        Ok(())
    }
}

/// Until when a record is waited for: up to the moment at which a call is given up, and no longer than it is
/// borne that nothing comes.
fn wait_end(calls: &LinkCalls, silence: Silence, now: u64) -> u64
    ensures { result ≡ wait_end now calls.now silence }
{
    calls.earliest(now).min(silence.end())
}

/// The call that is given up by now, where one is.
fn give_up(calls: &mut LinkCalls, silence: &mut Silence, now: u64) -> Option<Arrival>
    ensures { GivesUp now calls.old silence.old result calls.new silence.new }
{
    let Some(call) = calls.give_up(now) else {
        return None;
    };
    *silence = silence.behind_timeout(now);
    Some(Arrival::TimedOut {
        node: call.node,
        xid: call.xid,
    })
}

/// What comes where no record did: a call is given up, or time passes, or nothing more comes.
fn end_wait(calls: &mut LinkCalls, silence: &mut Silence, now: u64) -> Arrival
    ensures { EndsWait now calls.old silence.old result calls.new silence.new }
{
    if let Some(arrival) = give_up(calls, silence, now) {
        return arrival;
    }
    if silence.is_over(now) {
        *silence = silence.behind_pause(now);
        return Arrival::Quiet;
    }
    Arrival::Closed
}

impl<H: Host + Drop> Link for NodeLink<H> {
    ghost faults = { λ link. link.faults };

    ghost opened = { λ link. link.opened };

    ghost coming = { λ _. None };

    ghost sent = { λ _. None };

    ghost has_given = { λ link. HasGivenIn link.server };

    /// Makes the network: a server listens at its own address, and a client nowhere.
    fn open(&mut self, config: &Config, role: Role) -> Result<(), Failed>
        ensures opened { OpensLink self.old.opened config.now role result self.new.opened }
        ensures faults { self.new.faults ≡ counted result self.old.faults }
        ensures network { OpensNetwork config.now role self.old result self.new }
    {
        let opening = Opening::of(config, role);
        if opening.address.is_none() && role != Role::Client {
            return Err(self.fault());
        }
        let Ok(servers) = config.servers.to_vec(self.alloc) else {
            return Err(Failed::NoMemory);
        };
        match self.host.network(opening.address) {
            Ok(network) => {
                self.server = Some(RecordServer::new(self.alloc, network));
                self.opened = Some(opening);
                self.mds = Some(config.mds);
                self.servers = servers;
                self.callees = Callees::new(self.alloc);
                self.calls = LinkCalls::new(self.alloc);
                self.silence = Silence::new(first_pause(role));
                Ok(())
            }
            Err(Failed::Fault) => Err(self.fault()),
            Err(Failed::NoMemory) => Err(Failed::NoMemory),
        }
    }

    /// The next arrival. A call that got no answer for two seconds is given up first, so no stream of records
    /// holds that back; a READ of a data server that is down is, at once. Then a record is waited for, up to the
    /// next moment at which a call is given up. Where nothing comes for a second a metadata server is told that
    /// time passes; a client is after 10 milliseconds, and behind each time after twice as many, up to a
    /// second. A link that is not open fails.
    fn next(&mut self) -> Result<Arrival, Failed>
        ensures opened { self.new.opened ≡ self.old.opened }
        ensures faults { self.new.faults ≡ counted result self.old.faults }
        ensures arrives { GivesArrival self.old result self.new }
        ensures rest { self.new ≡ record self.old { server = self.new.server; calls = self.new.calls; silence = self.new.silence; faults = self.new.faults } }
    {
        let Some(server) = &mut self.server else {
            return Err(self.fault());
        };
        let now = server.time();
        if let Some(arrival) = give_up(&mut self.calls, &mut self.silence, now) {
            return Ok(arrival);
        }
        match server.next(wait_end(&self.calls, self.silence, now)) {
            Ok(Some((number, bytes))) => {
                let now = server.time();
                let from = self.callees.from(number);
                self.calls.come_in(from, replied_number(bytes.bytes()), now);
                self.silence = self.silence.behind_arrival(now);
                Ok(Arrival::Record { from, bytes })
            }
            Ok(None) => Ok(end_wait(&mut self.calls, &mut self.silence, server.time())),
            Err(Failed::Fault) => Err(self.fault()),
            Err(Failed::NoMemory) => Err(Failed::NoMemory),
        }
    }

    /// A record that came with what was read last; none where a call is to be given up first.
    fn ready(&mut self) -> Option<(NodeId, Data)>
        ensures opened { self.new.opened ≡ self.old.opened }
        ensures faults { self.new.faults ≡ self.old.faults }
        ensures gives { GivesOneReady self.old result self.new }
        ensures rest { self.new ≡ record self.old { server = self.new.server; calls = self.new.calls; silence = self.new.silence } }
    {
        let Some(server) = &mut self.server else {
            return None;
        };
        let now = server.time();
        if self.calls.earliest(now) <= now {
            return None;
        }
        let Ok(Some((number, bytes))) = server.next(0) else {
            return None;
        };
        let came = server.time();
        let from = self.callees.from(number);
        self.calls
            .come_in(from, replied_number(bytes.bytes()), came);
        self.silence = self.silence.behind_arrival(came);
        Some((from, bytes))
    }

    /// Sends a record on the connection of a client, or on the one that is made to a server: where that is
    /// gone a call is sent on a new one, and a reply is lost. A call waits for its answer from now on, also where
    /// no connection can be made for it, or it is lost with its connection.
    fn send(&mut self, to: NodeId, message: Data) -> Result<(), NoMemory>
        ensures opened { self.new.opened ≡ self.old.opened }
        ensures faults { self.new.faults ≡ self.old.faults }
        ensures sends { SendsTo self.old to message result self.new }
        ensures rest { self.new ≡ record self.old { server = self.new.server; callees = self.new.callees; calls = self.new.calls } }
    {
        let Some(server) = &mut self.server else {
            return Ok(());
        };
        go_out(&mut self.calls, to, message.bytes(), server.time())?;
        match to {
            NodeId::Client(number) => server.send(number, message),
            NodeId::Mds => send_made(server, &mut self.callees, to, self.mds, message),
            NodeId::Server(number) => {
                let address = address_numbered(&self.servers, number);
                send_made(server, &mut self.callees, to, address, message)
            }
        }
    }

    fn excuse(&mut self, from: NodeId)
        ensures opened { self.new.opened ≡ self.old.opened }
        ensures faults { self.new.faults ≡ self.old.faults }
        ensures excuses { ExcusesFrom from self.old self.new }
        ensures rest { self.new ≡ record self.old { server = self.new.server } }
    {
        let Some(server) = &mut self.server else {
            return;
        };
        server.excuse(self.callees.get(from));
    }

    fn finish(&mut self)
        ensures given { HasGivenIn self.new.server }
        ensures opened { self.new.opened ≡ self.old.opened }
        ensures faults { self.new.faults ≡ self.old.faults }
        ensures finishes { FinishesLink self.old self.new }
        ensures rest { self.new ≡ record self.old { server = self.new.server } }
    {
        if let Some(server) = &mut self.server {
            server.flush();
        }
    }
}
