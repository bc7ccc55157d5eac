//! Serving as a node over a link.

ghost use Rattle.std.specs.Prelude.{◌≡◌, ◌++◌, ◌<◌, ◌-◌, ◌^◌, None, true, MatchOption, OnOk};
ghost use Rattle.store_disk.specs.Disks.{both_faults};
ghost use Rattle.ff_node.specs.Nodes.{event_at};
ghost use Rattle.ff_node.specs.Serve.{DoesTogether, KeepsOr, NodeRunsOn, NodeServesOn, SendsAll, TakesMore, TakesTurn, WritesFor, beside, disk_counted, disk_faults, end_of_outcome, is_closed, last_end, link_faults, sink_counted, sink_faults, turn_faults};

use crate::end::NodeEnd;
use crate::fault::EventFault;
use crate::node::Node;
use cluster_model::{NodeId, Outbox};
use ff_xdr::{Data, NoMemory};
use node_link::{Arrival, Clock, Link};
use rpc_record::Sink;
use std::alloc::Global;
use store_disk::Disk;

/// Sends all of the records, in order. At an error fewer were sent.
fn send_all<L: Link>(records: Vec<(NodeId, Data)>, link: &mut L) -> Result<(), NoMemory>
    ensures sent { SendsAll (L.sent link.old) records.items result (L.sent link.new) }
    ensures coming { L.coming link.new ≡ L.coming link.old }
    ensures opened { L.opened link.new ≡ L.opened link.old }
    ensures faults { L.faults link.new ≡ L.faults link.old }
{
    for (to, bytes) in records {
        link.send(to, bytes)?;
    }
    Ok(())
}

/// Nothing more comes.
fn is_closed(arrival: &Arrival) -> bool
    ensures { result ≡ is_closed arrival.now }
{
    match arrival {
        Arrival::Closed => true,
        Arrival::Record { .. } => false,
        Arrival::TimedOut { .. } => false,
        Arrival::Quiet => false,
    }
}

/// The node that sent a record.
fn sender(arrival: &Arrival) -> Option<NodeId> {
    match arrival {
        Arrival::Record { from, .. } => Some(*from),
        Arrival::TimedOut { .. } => None,
        Arrival::Quiet => None,
        Arrival::Closed => None,
    }
}

/// Takes an arrival at its moment. Where it is a call that gets no answer, the link is told.
fn take_event<N: Node, L: Link, K: Sink, D: Disk>(
    moment: u64,
    arrival: Arrival,
    node: &mut N,
    link: &mut L,
    out: &mut Outbox,
    sink: &mut K,
    disk: &mut D,
    spare: &mut D,
) -> Result<(), EventFault>
    requires { N.is_usable node.old }
    ensures usable { OnOk result (N.is_usable node.new) }
    ensures state { OnOk result (N.state node.new ≡ ((N.rule.step) (N.state node.old) (event_at moment arrival)).state) }
    ensures sends { OnOk result (out.new.sends.items ≡ out.old.sends.items ++ ((N.rule.step) (N.state node.old) (event_at moment arrival)).sends) }
    ensures text { WritesFor (K.held sink.old) ((N.rule.step) (N.state node.old) (event_at moment arrival)).text result (K.held sink.new) }
    ensures writes { K.faults sink.new ≡ sink_counted result (K.faults sink.old) }
    ensures coming { L.coming link.new ≡ L.coming link.old }
    ensures sent { L.sent link.new ≡ L.sent link.old }
    ensures opened { L.opened link.new ≡ L.opened link.old }
    ensures faults { L.faults link.new ≡ L.faults link.old }
    ensures keeps { (settled : N.State) → N.keeps settled node.old (D.told disk.old) (D.told spare.old) → KeepsOr N.keeps N.leaves settled node.new result (D.told disk.new) (D.told spare.new) }
    ensures disk_faults { both_faults (D.faults disk.new) (D.faults spare.new) ≡ disk_counted result (both_faults (D.faults disk.old) (D.faults spare.old)) }
{
    let from = sender(&arrival);
    let is_excused = node.take(moment, arrival, out, sink, disk, spare)?;
    if let (true, Some(from)) = (is_excused, from) {
        link.excuse(from);
    }
    Ok(())
}

/// What the node is to remember waits, and it has not ended: so another arrival may be taken with those that were.
fn takes_more<N: Node>(node: &N) -> bool
    ensures { result ≡ true → (N.rule.outcome) (N.state node.now) ≡ None }
{
    node.has_waiting() && node.outcome().is_none()
}

/// Takes, each at a moment for which the clock is asked once, at most so many records that have come already, as long as what
/// the node is to remember waits. Answers how many it took. Nothing is sent.
fn take_ready<N: Node, L: Link, C: Clock, K: Sink, D: Disk>(
    most: u32,
    node: &mut N,
    link: &mut L,
    clock: &mut C,
    out: &mut Outbox,
    sink: &mut K,
    disk: &mut D,
    spare: &mut D,
) -> Result<u32, EventFault>
    requires { N.is_usable node.old }
    ensures usable { OnOk result (N.is_usable node.new) }
    ensures takes { TakesMore N.rule (N.state node.old) (beside (L.coming link.old) (L.sent link.old) (C.coming clock.old) (C.moment clock.old) (K.held sink.old)) out.old.sends.items most result (N.state node.new) (beside (L.coming link.new) (L.sent link.new) (C.coming clock.new) (C.moment clock.new) (K.held sink.new)) out.new.sends.items }
    ensures writes { K.faults sink.new ≡ sink_counted result (K.faults sink.old) }
    ensures opened { L.opened link.new ≡ L.opened link.old }
    ensures faults { L.faults link.new ≡ L.faults link.old }
    ensures keeps { (settled : N.State) → N.keeps settled node.old (D.told disk.old) (D.told spare.old) → KeepsOr N.keeps N.leaves settled node.new result (D.told disk.new) (D.told spare.new) }
    ensures disk_faults { both_faults (D.faults disk.new) (D.faults spare.new) ≡ disk_counted result (both_faults (D.faults disk.old) (D.faults spare.old)) }
{
    let mut taken = 0;
    while taken < most && takes_more(node) {
        let Some((from, bytes)) = link.ready() else {
            return Ok(taken);
        };
        let moment = clock.now();
        let arrival = Arrival::Record { from, bytes };
        take_event(moment, arrival, node, link, out, sink, disk, spare)?;
        taken += 1;
    }
    Ok(taken)
}

/// Takes an arrival at its moment, and with it at most so many more that have come already; keeps on the disks what the node is
/// to remember of them, and sends then what it sends for them. Answers how many it took. At an error less was sent.
fn take_together<N: Node, L: Link, C: Clock, K: Sink, D: Disk>(
    alloc: Global,
    moment: u64,
    arrival: Arrival,
    more: u32,
    node: &mut N,
    link: &mut L,
    clock: &mut C,
    sink: &mut K,
    disk: &mut D,
    spare: &mut D,
) -> Result<u32, EventFault>
    requires usable { N.is_usable node.old }
    requires few { more < 2 ^ 32 - 1 }
    ensures usable { OnOk result (N.is_usable node.new) }
    ensures does { DoesTogether N.rule (λ broken. N.keeps (N.state node.old) node.old (D.told disk.old) (D.told spare.old) → N.leaves (N.state node.old) broken (D.told disk.new) (D.told spare.new)) (N.state node.old) (event_at moment arrival) more (beside (L.coming link.old) (L.sent link.old) (C.coming clock.old) (C.moment clock.old) (K.held sink.old)) result (N.state node.new) (beside (L.coming link.new) (L.sent link.new) (C.coming clock.new) (C.moment clock.new) (K.held sink.new)) }
    ensures writes { K.faults sink.new ≡ sink_counted result (K.faults sink.old) }
    ensures opened { L.opened link.new ≡ L.opened link.old }
    ensures faults { L.faults link.new ≡ L.faults link.old }
    ensures keeps { N.keeps (N.state node.old) node.old (D.told disk.old) (D.told spare.old) → OnOk result (N.keeps (N.state node.new) node.new (D.told disk.new) (D.told spare.new)) }
    ensures disk_faults { both_faults (D.faults disk.new) (D.faults spare.new) ≡ disk_counted result (both_faults (D.faults disk.old) (D.faults spare.old)) }
{
    let mut out = Outbox::new(alloc);
    take_event(moment, arrival, node, link, &mut out, sink, disk, spare)?;
    let taken = take_ready(more, node, link, clock, &mut out, sink, disk, spare)?;
    if let Err(failed) = node.settle(disk, spare) {
        return Err(EventFault::of_disk(failed));
    }
    if send_all(out.sends, link).is_err() {
        return Err(EventFault::NoMemory);
    }
    Ok(1 + taken)
}

/// Takes what comes next at the clock's moment, with what came together with it, as far as so many arrivals may still be
/// taken, and sends what the node sends for them. Answers how many it took, or the node's end.
fn take_turn<N: Node, L: Link, C: Clock, K: Sink, D: Disk>(
    alloc: Global,
    left: u32,
    node: &mut N,
    link: &mut L,
    clock: &mut C,
    sink: &mut K,
    disk: &mut D,
    spare: &mut D,
) -> Result<u32, NodeEnd>
    requires left { 0 < left }
    requires usable { N.is_usable node.old }
    requires keeps { N.keeps (N.state node.old) node.old (D.told disk.old) (D.told spare.old) }
    ensures told { TakesTurn N.leaves N.rule (N.state node.old) left (beside (L.coming link.old) (L.sent link.old) (C.coming clock.old) (C.moment clock.old) (K.held sink.old)) result (N.state node.new) (beside (L.coming link.new) (L.sent link.new) (C.coming clock.new) (C.moment clock.new) (K.held sink.new)) (D.told disk.new) (D.told spare.new) }
    ensures usable { OnOk result (N.is_usable node.new) }
    ensures keeps { OnOk result (N.keeps (N.state node.new) node.new (D.told disk.new) (D.told spare.new)) }
    ensures opened { L.opened link.new ≡ L.opened link.old }
    ensures faults { L.faults link.new ≡ turn_faults link_faults result (L.faults link.old) }
    ensures writes { K.faults sink.new ≡ turn_faults sink_faults result (K.faults sink.old) }
    ensures disk_faults { both_faults (D.faults disk.new) (D.faults spare.new) ≡ turn_faults disk_faults result (both_faults (D.faults disk.old) (D.faults spare.old)) }
{
    if let Some(outcome) = node.outcome() {
        return Err(NodeEnd::of_outcome(outcome));
    }
    let arrival = match link.next() {
        Ok(arrival) => arrival,
        Err(failed) => return Err(NodeEnd::of_link(failed)),
    };
    if is_closed(&arrival) {
        return Err(NodeEnd::of_last(node.is_server()));
    }
    let moment = clock.now();
    let more = node.more_at_once().min(left - 1);
    match take_together(
        alloc, moment, arrival, more, node, link, clock, sink, disk, spare,
    ) {
        Ok(taken) => Ok(taken),
        Err(fault) => Err(NodeEnd::of_event(fault)),
    }
}

/// How a node ends whose turns are over.
fn end_after_turns<N: Node>(node: &N) -> NodeEnd
    ensures { MatchOption ((N.rule.outcome) (N.state node.now)) (result ≡ last_end N.rule.is_server) (λ r. result ≡ end_of_outcome r) }
{
    match node.outcome() {
        Some(outcome) => NodeEnd::of_outcome(outcome),
        None => NodeEnd::of_last(node.is_server()),
    }
}

/// Serves as a node over a link that is open: sends its first records, and then takes so many arrivals, or fewer
/// where it ends before; each at a moment for which the clock is asked once. What the node is to remember is on its
/// disks before what it sends for it is sent, and what it writes goes to the sink. The node is as it is then.
///
/// However it ends, what it sent went to the streams that take it, and the disks have what `leaves` says.
///
/// `NodeEnd::LinkFault` is a fault of the link in asking for what comes, and nothing else is;
/// `NodeEnd::WriteFault` is one of the sink, and `NodeEnd::DiskFault` one of a disk. For want of memory one arrival may
/// have been taken, and less sent than the node sends for it.
pub fn serve_node<N: Node, L: Link, C: Clock, K: Sink, D: Disk>(
    alloc: Global,
    turns: u32,
    first: Vec<(NodeId, Data)>,
    node: &mut N,
    link: &mut L,
    clock: &mut C,
    sink: &mut K,
    disk: &mut D,
    spare: &mut D,
) -> NodeEnd
    requires usable { N.is_usable node.old }
    requires keeps { N.keeps (N.state node.old) node.old (D.told disk.old) (D.told spare.old) }
    ensures told { NodeRunsOn N.leaves N.rule first.items (N.state node.old) turns (beside (L.coming link.old) (L.sent link.old) (C.coming clock.old) (C.moment clock.old) (K.held sink.old)) result (N.state node.new) (beside (L.coming link.new) (L.sent link.new) (C.coming clock.new) (C.moment clock.new) (K.held sink.new)) (D.told disk.new) (D.told spare.new) }
    ensures opened { L.opened link.new ≡ L.opened link.old }
    ensures faults { L.faults link.new ≡ link_faults result (L.faults link.old) }
    ensures writes { K.faults sink.new ≡ sink_faults result (K.faults sink.old) }
    ensures keeps { both_faults (D.faults disk.new) (D.faults spare.new) ≡ disk_faults result (both_faults (D.faults disk.old) (D.faults spare.old)) }
    ensures given { L.has_given link.new }
{
    let end = match send_all(first, link) {
        Ok(()) => take_turns(alloc, turns, node, link, clock, sink, disk, spare),
        Err(NoMemory) => NodeEnd::NoMemory,
    };
    link.finish();
    end
}

/// The same behind the first records; some of what was sent may not have gone yet.
fn take_turns<N: Node, L: Link, C: Clock, K: Sink, D: Disk>(
    alloc: Global,
    turns: u32,
    node: &mut N,
    link: &mut L,
    clock: &mut C,
    sink: &mut K,
    disk: &mut D,
    spare: &mut D,
) -> NodeEnd
    requires usable { N.is_usable node.old }
    requires keeps { N.keeps (N.state node.old) node.old (D.told disk.old) (D.told spare.old) }
    ensures told { NodeServesOn N.leaves N.rule (N.state node.old) turns (beside (L.coming link.old) (L.sent link.old) (C.coming clock.old) (C.moment clock.old) (K.held sink.old)) result (N.state node.new) (beside (L.coming link.new) (L.sent link.new) (C.coming clock.new) (C.moment clock.new) (K.held sink.new)) (D.told disk.new) (D.told spare.new) }
    ensures opened { L.opened link.new ≡ L.opened link.old }
    ensures faults { L.faults link.new ≡ link_faults result (L.faults link.old) }
    ensures writes { K.faults sink.new ≡ sink_faults result (K.faults sink.old) }
    ensures keeps { both_faults (D.faults disk.new) (D.faults spare.new) ≡ disk_faults result (both_faults (D.faults disk.old) (D.faults spare.old)) }
{
    let mut left = turns;
    while left > 0 {
        match take_turn(alloc, left, node, link, clock, sink, disk, spare) {
            Ok(taken) => left -= taken,
            Err(end) => return end,
        }
    }
    end_after_turns(node)
}
