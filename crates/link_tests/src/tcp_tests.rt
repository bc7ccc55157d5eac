//! Three connections at once, and a node that makes a call, over loopback.

use crate::memory::{CALL, REPLY};
use cluster_model::NodeId;
use device_addr::NetAddr;
use ff_xdr::Data;
use node_config::Config;
use node_link::{Arrival, Link, NodeLink, Role};
use record_server::RecordServer;
use record_tcp::{TcpHost, TcpNetwork};
use std::io::{Read, Write};
use std::net::{IpAddr, Ipv4Addr, Shutdown, SocketAddr, TcpStream};
use std::test::Fail;

/// What three peers send, in parts of which each comes between those of the others: records as one
/// fragment or two, the last of each peer behind the others (RFC 5531, section 11).
const PARTS: [(usize, &[u8]); 8] = [
    (0, &[0x80, 0, 0]),
    (1, &[0, 0, 0, 2, b'b', b'e', 0x80, 0]),
    (2, &[0x80, 0, 0, 1, b'c', 0x80]),
    (0, &[4, b'a', b'l']),
    (1, &[0, 2, b't', b'a']),
    (2, &[0, 0, 0]),
    (0, &[b'f', b'a', 0x80, 0, 0, 1, b'z']),
    (1, &[0x80, 0, 0, 3, b'b', b'i', b's']),
];

/// What each of them reads: its records, answered with themselves.
const ANSWERS: [&[u8]; 3] = [
    &[0x80, 0, 0, 4, b'a', b'l', b'f', b'a', 0x80, 0, 0, 1, b'z'],
    &[
        0x80, 0, 0, 4, b'b', b'e', b't', b'a', 0x80, 0, 0, 3, b'b', b'i', b's',
    ],
    &[0x80, 0, 0, 1, b'c', 0x80, 0, 0, 0],
];

#[test]
fn three_connections(rt: HostRuntime) -> Result<(), Fail> {
    let any = SocketAddr::new(IpAddr::V4(Ipv4Addr::LOCALHOST), 0);
    let network = TcpNetwork::open(&rt, rt.alloc(), Some(any))?;
    let Some(address) = network.address() else {
        panic!(rt; "no address");
    };
    let mut server = RecordServer::new(rt.alloc(), network);
    let mut peers = Vec::new(rt.alloc());
    for _ in 0..3 {
        peers.push(TcpStream::connect(&rt, address)?)?;
    }
    for (number, part) in PARTS {
        if let Some(peer) = peers.get_mut(number) {
            peer.write_all(part)?;
        }
    }
    for peer in &peers {
        peer.shutdown(Shutdown::Write)?;
    }
    for _ in 0..6 {
        if let Ok(Some((connection, message))) = server.next(u64::MAX) {
            server.send(connection, message)?;
        }
    }
    server.flush();
    for (peer, want) in peers.iter_mut().zip(ANSWERS) {
        let mut found = vec![in rt.alloc(); 0; want.len()]?;
        peer.read_exact(&mut found)?;
        assert_eq!(rt; found.as_slice(), want);
    }
    Ok(())
}

/// A client calls its metadata server over a connection that it makes, and hears the reply on it, if time passes or not.
#[test]
fn a_node_that_calls(rt: HostRuntime) -> Result<(), Fail> {
    let alloc = rt.alloc();
    let any = SocketAddr::new(IpAddr::V4(Ipv4Addr::LOCALHOST), 0);
    let network = TcpNetwork::open(&rt, alloc, Some(any))?;
    let Some(address) = network.address() else {
        panic!(rt; "no address");
    };
    let mut server = RecordServer::new(alloc, network);
    let mds = NetAddr {
        host: [127, 0, 0, 1],
        port: address.port(),
    };
    let config = Config {
        servers: [mds].to_vec(alloc)?,
        mds,
        mirrors: 1,
        own: 1,
        turns: 1,
    };
    let mut link = NodeLink::new(alloc, TcpHost::new(&rt, alloc));
    assert!(rt; link.open(&config, Role::Client).is_ok());
    link.send(NodeId::Mds, Data::of(alloc, &CALL)?)?;
    link.finish();
    match server.next(u64::MAX) {
        Ok(Some((connection, message))) => {
            assert!(rt; message.bytes() == CALL.as_slice());
            server.send(connection, Data::of(alloc, &REPLY)?)?;
        }
        _ => panic!(rt; "no call"),
    }
    server.flush();
    for _ in 0..100 {
        match link.next() {
            Ok(Arrival::Record { from, bytes }) => {
                assert!(rt; from == NodeId::Mds && bytes.bytes() == REPLY.as_slice());
                return Ok(());
            }
            Ok(Arrival::Quiet) => {}
            _ => panic!(rt; "no reply"),
        }
    }
    panic!(rt; "no reply in time")
}
