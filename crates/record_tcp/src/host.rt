//! What makes a network over TCP.

ghost use Rattle.std.specs.Prelude.{◌≡◌, ◌↔◌, Err};
ghost use Rattle.std.specs.IoError.{error_kind};
ghost use Rattle.rpc_record.specs.Stream.{counted};

use crate::network::TcpNetwork;
use device_addr::NetAddr;
use record_server::Host;
use rpc_record::Failed;
use std::alloc::Global;
use std::io::{Error, ErrorKind};
use std::net::{IpAddr, Ipv4Addr, Net, SocketAddr};
use std::time::Clock;

/// An address as the system has it.
pub(crate) fn socket_address(address: NetAddr) -> SocketAddr {
    let [a, b, c, d] = address.host;
    SocketAddr::new(IpAddr::V4(Ipv4Addr::new(a, b, c, d)), address.port)
}

/// Makes networks over TCP.
#[derive(Drop)]
pub struct TcpHost<'r, R: Net + Clock> {
    rt: &'r R,
    alloc: Global,
    faults: u64,
}

impl<'r, R: Net + Clock> TcpHost<'r, R> {
    /// A host that has made none; takes no memory.
    pub fn new(rt: &'r R, alloc: Global) -> TcpHost<'r, R> {
        TcpHost {
            rt,
            alloc,
            faults: 0,
        }
    }

    /// Why there is no network, counted where it is a fault: anything but want of memory.
    fn failure(&mut self, error: &Error) -> Failed
        ensures memory { (result ≡ Failed.NoMemory) ↔ (error_kind error.now ≡ ErrorKind.OutOfMemory) }
        ensures counted { self.new.faults ≡ counted {T = Unit {0}} (Err result) self.old.faults }
    {
        if error.kind() == ErrorKind::OutOfMemory {
            return Failed::NoMemory;
        }
        self.faults = self.faults.saturating_add(1);
        Failed::Fault
    }
}

impl<'r, R: Net + Clock> Host for TcpHost<'r, R> {
    type Net = TcpNetwork<'r, R>;

    ghost faults = { λ host. host.faults };

    /// Want of memory, also the system's, is none of its faults.
    fn network(&mut self, address: Option<NetAddr>) -> Result<TcpNetwork<'r, R>, Failed> {
        let address = match address {
            Some(address) => Some(socket_address(address)),
            None => None,
        };
        match TcpNetwork::open(self.rt, self.alloc, address) {
            Ok(network) => Ok(network),
            Err(error) => Err(self.failure(&error)),
        }
    }
}
