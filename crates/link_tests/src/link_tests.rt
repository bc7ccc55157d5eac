//! The link of a node over memory: the connections that it makes, and when a call is given up, and when time
//! passes.

use crate::memory::{
    CALL, CALL_RECORD, NEVER, NEXT_CALL, READ, REPLIES, REPLY, REPLY_RECORD, stream,
};
use cluster_model::NodeId;
use device_addr::NetAddr;
use ff_xdr::Data;
use node_config::Config;
use node_link::{Arrival, Link, NodeLink, Role};
use record_link::MemoryStream;
use record_server::{MemoryHost, MemoryNetwork};
use std::alloc::Global;
use std::process::Abort;
use std::test::Fail;

type MemoryNode = NodeLink<MemoryHost>;

/// An address of the cluster, by its port.
fn at(port: u16) -> NetAddr {
    NetAddr {
        host: [127, 0, 0, 1],
        port,
    }
}

/// A cluster of a metadata server and two data servers.
fn config(alloc: Global) -> Result<Config, Fail> {
    Ok(Config {
        servers: [at(1), at(2)].to_vec(alloc)?,
        mds: at(2049),
        mirrors: 2,
        own: 1,
        turns: 100,
    })
}

/// A link in this role over a network that accepts and makes these.
fn link(
    rt: &impl Abort,
    alloc: Global,
    role: Role,
    coming: Vec<MemoryStream>,
    to_make: Vec<Option<MemoryStream>>,
) -> Result<MemoryNode, Fail> {
    let mut accepted = Vec::new(alloc);
    for stream in coming {
        accepted.push(Ok(stream))?;
    }
    let network = MemoryNetwork::new(alloc, accepted, to_make, Vec::new(alloc));
    let mut link = NodeLink::new(alloc, MemoryHost::new(network));
    assert!(rt; link.open(&config(alloc)?, role).is_ok());
    Ok(link)
}

/// The next arrival is that the call of this number is given up.
fn gives_up(rt: &impl Abort, link: &mut MemoryNode, node: NodeId, xid: u32) {
    match link.next() {
        Ok(
            Arrival::TimedOut {
                node: found,
                xid: number,
            },
        ) => assert!(rt; found == node && number == xid),
        _ => panic!(rt; "not given up"),
    }
}

/// The next arrival is that time passes, up to this moment.
fn passes(rt: &impl Abort, link: &mut MemoryNode, moment: u64) {
    let arrival = link.next();
    assert!(rt; matches!(arrival, Ok(Arrival::Quiet)) && time(link) == moment);
}

/// The call that is given up next, behind other arrivals.
fn given_up(link: &mut MemoryNode) -> Option<(NodeId, u32)> {
    for _ in 0..100 {
        if let Ok(Arrival::TimedOut { node, xid }) = link.next() {
            return Some((node, xid));
        }
    }
    None
}

/// The time in milliseconds.
fn time(link: &MemoryNode) -> u64 {
    match link.server() {
        Some(server) => server.time(),
        None => 0,
    }
}

/// The next arrival is a record of a node.
fn gives(rt: &impl Abort, link: &mut MemoryNode, node: NodeId, record: &[u8]) {
    match link.next() {
        Ok(Arrival::Record { from, bytes }) => {
            assert!(rt; from == node && bytes.bytes() == record);
        }
        _ => panic!(rt; "no record"),
    }
}

/// The tries to make a connection: under which number, 0 where none was made, and to which address.
fn made(link: &MemoryNode) -> &[(u32, NetAddr)] {
    match link.server() {
        Some(server) => server.network().made(),
        None => &[],
    }
}

/// Of two calls to the metadata server one is answered twice, and the other is given up under its number, whatever
/// else comes. To a data server no connection can be made: each call to it is given up, once.
#[test]
fn calls_by_their_numbers(rt: HostRuntime) -> Result<(), Fail> {
    let alloc = rt.alloc();
    let mut to_make = Vec::new(alloc);
    to_make.push(Some(stream(alloc, &REPLIES, &[])?))?;
    to_make.push(None)?;
    let mut link = link(&rt, alloc, Role::Server, Vec::new(alloc), to_make)?;
    for node in [NodeId::Mds, NodeId::Server(2)] {
        link.send(node, Data::of(alloc, &CALL)?)?;
        link.send(node, Data::of(alloc, &NEXT_CALL)?)?;
    }
    assert!(rt; made(&link) == [(1, at(2049)), (0, at(2)), (0, at(2))].as_slice());
    gives(&rt, &mut link, NodeId::Mds, &REPLY);
    gives(&rt, &mut link, NodeId::Mds, &REPLY);
    gives(&rt, &mut link, NodeId::Mds, &[0, 0, 0, 9, 0, 0, 0, 1]);
    gives_up(&rt, &mut link, NodeId::Mds, 8);
    gives_up(&rt, &mut link, NodeId::Server(2), 7);
    gives_up(&rt, &mut link, NodeId::Server(2), 8);
    Ok(())
}

/// To a client the pauses in which nothing comes are 10, 20 and 40 milliseconds long.
#[test]
fn a_silent_client(rt: HostRuntime) -> Result<(), Fail> {
    let alloc = rt.alloc();
    let mut link = link(&rt, alloc, Role::Client, Vec::new(alloc), Vec::new(alloc))?;
    for moment in [10, 30, 70] {
        passes(&rt, &mut link, moment);
    }
    Ok(())
}

/// Records of one data server, which come all along, hold no call to another one back, and where that was silent
/// for six seconds, a READ of it is given up at once.
#[test]
fn a_dead_server(rt: HostRuntime) -> Result<(), Fail> {
    let alloc = rt.alloc();
    let mut bytes = Vec::new(alloc);
    let mut sizes = Vec::new(alloc);
    for _ in 0..70 {
        bytes.extend_from_slice(&REPLY_RECORD)?;
        sizes.extend_from_slice(&[12, 0])?;
    }
    let mut to_make = Vec::new(alloc);
    to_make.push(Some(stream(alloc, &bytes, &sizes)?))?;
    let mut link = link(&rt, alloc, Role::Server, Vec::new(alloc), to_make)?;
    link.send(NodeId::Server(1), Data::of(alloc, &CALL)?)?;
    for _ in 0..3 {
        link.send(NodeId::Server(2), Data::of(alloc, &READ)?)?;
        assert_eq!(rt; given_up(&mut link), Some((NodeId::Server(2), 7)));
    }
    link.send(NodeId::Server(2), Data::of(alloc, &READ)?)?;
    gives_up(&rt, &mut link, NodeId::Server(2), 7);
    assert_eq!(rt; time(&link), 6_000);
    Ok(())
}

/// A connection that is cut off is made anew for the next call, to the same address; the call that was lost with
/// it is given up in two seconds. Each second a metadata server is told that time passes.
#[test]
fn a_connection_that_is_cut(rt: HostRuntime) -> Result<(), Fail> {
    let alloc = rt.alloc();
    let mut to_make = Vec::new(alloc);
    to_make.push(Some(MemoryStream::cut_off(
        alloc,
        CALL_RECORD.to_vec(alloc)?,
        [64].to_vec(alloc)?,
    )))?;
    to_make.push(Some(stream(alloc, &REPLY_RECORD, &[])?))?;
    let mut link = link(&rt, alloc, Role::Mds, Vec::new(alloc), to_make)?;
    link.send(NodeId::Server(1), Data::of(alloc, &CALL)?)?;
    passes(&rt, &mut link, 1_000);
    gives_up(&rt, &mut link, NodeId::Server(1), 7);
    link.send(NodeId::Server(1), Data::of(alloc, &CALL)?)?;
    assert!(rt; made(&link) == [(1, at(1)), (2, at(1))].as_slice());
    gives(&rt, &mut link, NodeId::Server(1), &REPLY);
    Ok(())
}

/// A callback goes on the connection that its client made, and is given up where nothing comes back.
#[test]
fn a_callback(rt: HostRuntime) -> Result<(), Fail> {
    let alloc = rt.alloc();
    let mut sizes = NEVER.to_vec(alloc)?;
    sizes.insert(0, 64)?;
    sizes.insert(1, 64)?;
    let mut coming = Vec::new(alloc);
    coming.push(stream(alloc, &CALL_RECORD, &sizes)?)?;
    let mut link = link(&rt, alloc, Role::Mds, coming, Vec::new(alloc))?;
    gives(&rt, &mut link, NodeId::Client(1), &CALL);
    link.send(NodeId::Client(1), Data::of(alloc, &CALL)?)?;
    let moment = time(&link).saturating_add(1_000);
    passes(&rt, &mut link, moment);
    gives_up(&rt, &mut link, NodeId::Client(1), 7);
    let went = match link.server() {
        Some(server) => server.stream(1).map(|stream| stream.gone()),
        None => None,
    };
    assert_eq!(rt; went, Some(&CALL_RECORD[..]));
    Ok(())
}
