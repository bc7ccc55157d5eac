//! A server over memory.

use crate::memory::{CALL, CALL_RECORD, NEVER, ONE, ONE_FOUR, REPLY, TOO_LONG, stream};
use ff_xdr::Data;
use record_link::MemoryStream;
use record_server::{MAX_CONNECTIONS, MemoryNetwork, RecordServer, Refused};
use std::alloc::Global;
use std::process::Abort;
use std::test::Fail;

type Server = RecordServer<MemoryNetwork>;

/// The bytes that went on the connection of this number, where it is open.
fn gone(server: &Server, number: u32) -> Option<&[u8]> {
    match server.stream(number) {
        Some(stream) => Some(stream.gone()),
        None => None,
    }
}

/// A server over a network that gives these to `accept`, and whose waits take as long as they may.
fn server(alloc: Global, coming: Vec<Result<MemoryStream, Refused>>) -> Server {
    let network = MemoryNetwork::new(alloc, coming, Vec::new(alloc), Vec::new(alloc));
    RecordServer::new(alloc, network)
}

/// The next record is this one, of this connection.
fn gives(rt: &impl Abort, server: &mut Server, number: u32, message: &[u8]) -> Result<(), Fail> {
    match server.next(u64::MAX) {
        Ok(Some((from, found))) => assert!(rt; from == number && found.bytes() == message),
        _ => panic!(rt; "no record"),
    }
    Ok(())
}

/// The first comes in two parts with a pause between, and takes its answers so; the third is no
/// stream of records; the fourth pauses three times. Behind refusals that are no fault.
#[test]
fn four_connections(rt: HostRuntime) -> Result<(), Fail> {
    let alloc = rt.alloc();
    let mut coming = Vec::new(alloc);
    coming.push(Err(Refused::Lost))?;
    let mut bytes = ONE_FOUR.to_vec(alloc)?;
    bytes.push(0x80)?;
    let sizes = [5, 0, 10, 3, 0, 0, 64, 0, 0, 0, 0, 0, 0, 0, 0, 0];
    coming.push(Ok(stream(alloc, &bytes, &sizes)?))?;
    coming.push(Ok(stream(alloc, &ONE, &[])?))?;
    coming.push(Ok(stream(alloc, &TOO_LONG, &[])?))?;
    coming.push(Ok(stream(alloc, &ONE, &[0, 0, 0])?))?;
    coming.push(Err(Refused::Busy))?;
    let mut server = server(alloc, coming);
    let want: [(u32, &[u8]); 4] = [(2, b"one"), (1, b"one"), (1, b"four"), (4, b"one")];
    for (number, message) in want {
        gives(&rt, &mut server, number, message)?;
        server.send(number, Data::of(alloc, message)?)?;
    }
    server.flush();
    for number in [2, 3] {
        assert!(rt; gone(&server, number).is_none());
    }
    assert_eq!(rt; gone(&server, 1), Some(&ONE_FOUR[..]));
    assert_eq!(rt; gone(&server, 4), Some(&ONE[..]));
    Ok(())
}

/// A peer that has ended its side is kept until its call is answered, or gets no answer.
#[test]
fn ended_peers(rt: HostRuntime) -> Result<(), Fail> {
    let alloc = rt.alloc();
    let mut coming = Vec::new(alloc);
    for _ in 0..2 {
        coming.push(Ok(stream(alloc, &CALL_RECORD, &[])?))?;
    }
    let mut server = server(alloc, coming);
    for number in [1, 2] {
        gives(&rt, &mut server, number, &CALL)?;
    }
    let nothing = server.next(30_000);
    assert!(rt; matches!(nothing, Ok(None)) && server.is_open(1) && server.is_open(2));
    server.excuse(1);
    server.send(2, Data::of(alloc, &REPLY)?)?;
    let nothing = server.next(40_000);
    assert!(rt; matches!(nothing, Ok(None)) && !server.is_open(1) && !server.is_open(2));
    Ok(())
}

/// What a peer does not take within two seconds is given up, and the peer closed.
#[test]
fn a_stuck_peer(rt: HostRuntime) -> Result<(), Fail> {
    let alloc = rt.alloc();
    let mut sizes = NEVER.to_vec(alloc)?;
    sizes.insert(0, 64)?;
    let mut coming = Vec::new(alloc);
    coming.push(Ok(stream(alloc, &ONE_FOUR, &sizes)?))?;
    let mut server = server(alloc, coming);
    gives(&rt, &mut server, 1, b"one")?;
    server.send(1, Data::of(alloc, b"never read")?)?;
    server.flush();
    assert!(rt; !server.is_open(1) && server.time() >= 2_000 && server.time() <= 2_200);
    Ok(())
}

/// Where as many are open as may be, the next one is accepted in the place of one that was silent for ten
/// seconds, and waits until then.
#[test]
fn crowded(rt: HostRuntime) -> Result<(), Fail> {
    let alloc = rt.alloc();
    let mut coming = Vec::new(alloc);
    for _ in 0..=MAX_CONNECTIONS {
        let sizes = vec![in alloc; 0; 300]?;
        coming.push(Ok(stream(alloc, &ONE, &sizes)?))?;
    }
    let mut server = server(alloc, coming);
    let last = MAX_CONNECTIONS as u32 + 1;
    let nothing = server.next(9_900);
    assert!(rt; matches!(nothing, Ok(None)) && server.is_open(1) && !server.is_open(last));
    let nothing = server.next(10_300);
    assert!(rt; matches!(nothing, Ok(None)) && !server.is_open(1) && server.is_open(last));
    Ok(())
}
