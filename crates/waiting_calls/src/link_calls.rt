//! The calls of a link that got no answer yet.

ghost use Rattle.std.specs.Prelude.{◌≡◌, ◌+◌, ◌≤◌, ◌++◌, not, position, OnErr, OnOk};
ghost use Rattle.std.specs.List.{filter};
ghost use Rattle.std.specs.VecDeque.{deque_len, deque_capacity};
ghost use Rattle.waiting_calls.specs.ServerNews.{servers_called, servers_heard};
ghost use Rattle.waiting_calls.specs.LinkCalls.{GivesUpFirst, call_goes_out, call_over, calls_without, calls_without_known, earliest, is_link_call, is_node_down, is_read_of, no_link_calls, node_given_up, record_comes, without_first};

use crate::link_call::LinkCall;
use crate::server_news::{
    NewsChange, ServerNews, call_server, change_news, is_found_down, is_server_down,
};
use cluster_model::NodeId;
use ff_xdr::NoMemory;
use std::alloc::Global;
use std::collections::VecDeque;
use std::marker::Model;

/// The calls of a link that got no answer yet, each under its node and its number, and what is known of the
/// data servers that were called. All moments are in milliseconds.
#[derive(Debug, Drop)]
pub struct LinkCalls {
    waiting: VecDeque<LinkCall>,
    // the READs that are given up at once; there is room for each that waits
    at_once: VecDeque<LinkCall>,
    servers: Vec<ServerNews>,
    // the highest number under which a call went out
    highest: u32,
}

impl Model for LinkCalls {
    ghost use Rattle.std.specs.Prelude.{◌+◌, ◌≤◌};
    ghost use Rattle.std.specs.VecDeque.{deque_len, deque_capacity};
    ghost use Rattle.waiting_calls.specs.LinkCalls.{LinkCallsValue};

    ghost Value = { LinkCallsValue };

    ghost view = { λ c. record { waiting = c.waiting.items; at_once = c.at_once.items; servers = c.servers.items; highest = c.highest } };

    ghost invariant = { λ c. deque_len c.at_once + deque_len c.waiting ≤ deque_capacity c.at_once };
}

/// The place of the call of this number to this node.
fn place_of(calls: &VecDeque<LinkCall>, node: NodeId, xid: u32) -> Option<usize>
    ensures { result ≡ position (λ call. is_link_call node xid call) calls.now.items }
{
    calls.iter().position(|call| call.is_link_call(node, xid))
}

/// The call of this number to this node stands here no longer. The first calls are answered first, so it is
/// found near the front.
fn take_out(calls: &mut VecDeque<LinkCall>, node: NodeId, xid: u32)
    ensures items { calls.new.items ≡ calls_without node xid calls.old.items }
    ensures fewer { deque_len calls.new ≤ deque_len calls.old }
    ensures capacity { deque_capacity calls.new ≡ deque_capacity calls.old }
{
    if let Some(place) = place_of(calls, node, xid) {
        calls.remove(place);
    }
}

/// The same, where no call of a number above the highest stands here: one of such a number is not looked for.
fn take_out_known(calls: &mut VecDeque<LinkCall>, highest: u32, node: NodeId, xid: u32)
    ensures items { calls.new.items ≡ calls_without_known highest node xid calls.old.items }
    ensures fewer { deque_len calls.new ≤ deque_len calls.old }
    ensures capacity { deque_capacity calls.new ≡ deque_capacity calls.old }
{
    if xid <= highest {
        take_out(calls, node, xid);
    }
}

/// The READs that wait for this server stand behind those that are given up at once, too.
fn copy_reads(waiting: &VecDeque<LinkCall>, at_once: &mut VecDeque<LinkCall>, number: u32)
    requires room { deque_len at_once.old + deque_len waiting.now ≤ deque_capacity at_once.old }
    ensures items { at_once.new.items ≡ at_once.old.items ++ filter (λ call. is_read_of number call) waiting.now.items }
    ensures capacity { deque_capacity at_once.new ≡ deque_capacity at_once.old }
{
    for place in 0..waiting.len() {
        let call = waiting[place];
        if call.is_read_of(number) {
            at_once.push_back_reserved(call);
        }
    }
}

/// The READs that wait for this server wait no longer, and are given up at once.
fn move_reads(waiting: &mut VecDeque<LinkCall>, at_once: &mut VecDeque<LinkCall>, number: u32)
    requires room { deque_len at_once.old + deque_len waiting.old ≤ deque_capacity at_once.old }
    ensures waiting { waiting.new.items ≡ filter (λ call. not (is_read_of number call)) waiting.old.items }
    ensures at_once { at_once.new.items ≡ at_once.old.items ++ filter (λ call. is_read_of number call) waiting.old.items }
    ensures room { deque_len at_once.new + deque_len waiting.new ≤ deque_capacity at_once.new }
{
    copy_reads(waiting, at_once, number);
    waiting.retain(|call| !call.is_read_of(number));
}

/// There is room for one more call.
fn make_room(
    waiting: &mut VecDeque<LinkCall>,
    at_once: &mut VecDeque<LinkCall>,
) -> Result<(), NoMemory>
    requires room { deque_len at_once.old + deque_len waiting.old ≤ deque_capacity at_once.old }
    ensures items { (waiting.new.items ≡ waiting.old.items) × (at_once.new.items ≡ at_once.old.items) }
    ensures lengths { (deque_len waiting.new ≡ deque_len waiting.old) × (deque_len at_once.new ≡ deque_len at_once.old) }
    ensures still { deque_len at_once.new + deque_len waiting.new ≤ deque_capacity at_once.new }
    ensures for_waiting { OnOk result (deque_len waiting.new + 1 ≤ deque_capacity waiting.new) }
    ensures for_both { OnOk result (deque_len at_once.new + (deque_len waiting.new + 1) ≤ deque_capacity at_once.new) }
{
    waiting.reserve(1)?;
    at_once.reserve(waiting.len() + 1)?;
    Ok(())
}

/// A call goes to a node now.
fn call_node(servers: &mut Vec<ServerNews>, node: NodeId, now: u64) -> Result<(), NoMemory>
    ensures called { OnOk result (servers.new.items ≡ servers_called now node servers.old.items) }
    ensures unchanged { OnErr result (servers.new.items ≡ servers.old.items) }
{
    match node {
        NodeId::Mds => Ok(()),
        NodeId::Server(number) => call_server(servers, number, now),
        NodeId::Client(_) => Ok(()),
    }
}

/// A record came from a node now.
fn hear_node(servers: &mut [ServerNews], node: NodeId, now: u64)
    ensures { servers.new ≡ servers_heard now node servers.old }
{
    match node {
        NodeId::Mds => {}
        NodeId::Server(number) => change_news(servers, number, now, NewsChange::IsHeardFrom),
        NodeId::Client(_) => {}
    }
}

/// Whether a node is a data server that is down.
fn is_node_down(now: u64, node: NodeId, servers: &[ServerNews]) -> bool
    ensures { result ≡ is_node_down now node servers.now }
{
    match node {
        NodeId::Mds => false,
        NodeId::Server(number) => is_server_down(now, number, servers),
        NodeId::Client(_) => false,
    }
}

impl LinkCalls {
    /// No calls; takes no memory.
    pub fn new(alloc: Global) -> LinkCalls
        ensures { result ≡ no_link_calls }
    {
        LinkCalls {
            waiting: VecDeque::new(alloc),
            at_once: VecDeque::new(alloc),
            servers: Vec::new(alloc),
            highest: 0,
        }
    }

    /// A call goes now. Where it went before, that counts no longer. At an error nothing has changed.
    pub fn go_out(&mut self, call: LinkCall, now: u64) -> Result<(), NoMemory>
        ensures goes { OnOk result (self.new ≡ call_goes_out now call self.old) }
        ensures unchanged { OnErr result (self.new ≡ self.old) }
    {
        make_room(&mut self.waiting, &mut self.at_once)?;
        let is_over = call.is_data_read && is_node_down(now, call.node, &self.servers);
        call_node(&mut self.servers, call.node, now)?;
        let highest = self.highest;
        take_out_known(&mut self.waiting, highest, call.node, call.xid);
        take_out_known(&mut self.at_once, highest, call.node, call.xid);
        self.highest = highest.max(call.xid);
        if is_over {
            self.at_once.push_back_reserved(call);
        } else {
            self.waiting.push_back_reserved(call);
        }
        Ok(())
    }

    /// A record came from a node now, the reply to the call of a number, or none.
    pub fn come_in(&mut self, node: NodeId, answers: Option<u32>, now: u64)
        ensures { self.new ≡ record_comes now node answers self.old }
    {
        hear_node(&mut self.servers, node, now);
        if let Some(xid) = answers {
            take_out(&mut self.waiting, node, xid);
            take_out(&mut self.at_once, node, xid);
        }
    }

    /// What is to be given up first by now.
    fn call_over(&self, now: u64) -> Option<LinkCall>
        ensures { result ≡ call_over now self.now }
    {
        if let Some(call) = self.at_once.front() {
            return Some(*call);
        }
        match self.waiting.front() {
            Some(call) => { if call.due <= now { Some(*call) } else { None } }
            None => None,
        }
    }

    /// The first of those that are given up at once, or else of those that wait, stands there no longer.
    fn drop_first(&mut self)
        ensures { self.new ≡ without_first self.old.at_once self.old }
    {
        if self.at_once.pop_front().is_none() {
            self.waiting.pop_front();
        }
    }

    /// A call to the data server of this number is given up now; where that is down, the READs that wait for it
    /// are given up at once.
    fn give_up_server(&mut self, number: u32, now: u64)
        ensures { self.new ≡ node_given_up now (NodeId.Server number) self.old }
    {
        let is_down = is_found_down(now, number, &self.servers);
        change_news(
            &mut self.servers,
            number,
            now,
            NewsChange::IsGivenUp(is_down),
        );
        if is_down {
            move_reads(&mut self.waiting, &mut self.at_once, number);
        }
    }

    /// A call to a node is given up now.
    fn give_up_node(&mut self, node: NodeId, now: u64)
        ensures { self.new ≡ node_given_up now node self.old }
    {
        match node {
            NodeId::Mds => {}
            NodeId::Server(number) => self.give_up_server(number, now),
            NodeId::Client(_) => {}
        }
    }

    /// Gives up what is to be given up first by now, if something is; takes no memory.
    pub fn give_up(&mut self, now: u64) -> Option<LinkCall>
        ensures { GivesUpFirst now self.old result self.new }
    {
        let Some(call) = self.call_over(now) else {
            return None;
        };
        self.drop_first();
        self.give_up_node(call.node, now);
        Some(call)
    }

    /// The first moment at which something is to be given up, and the last of all where nothing is.
    pub fn earliest(&self, now: u64) -> u64
        ensures { result ≡ earliest now self.now }
    {
        if !self.at_once.is_empty() {
            return now;
        }
        match self.waiting.front() {
            Some(call) => call.due,
            None => u64::MAX,
        }
    }
}
