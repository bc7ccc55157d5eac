//! Connections over TCP.

ghost use Rattle.std.specs.Prelude.{◌≡◌, ◌↔◌, ◌⊎◌, None, Err};
ghost use Rattle.std.specs.IoError.{error_kind};
ghost use Rattle.record_server.specs.Network.{refused_more};

use crate::host::socket_address;
use crate::socket::Socket;
use device_addr::NetAddr;
use ff_xdr::NoMemory;
use mio::net::{TcpListener, TcpStream};
use mio::{Events, Interest, Poll, Token};
use record_server::{Network, Refused};
use std::alloc::Global;
use std::io::{self, Error, ErrorKind};
use std::net::{Net, SocketAddr};
use std::time::{Clock, Duration, Instant};

/// The token of the listener; those of the connections are their numbers.
const LISTENER: Token = Token(0);

/// The most events that one wait reports; others are reported by the next.
const MOST_EVENTS: usize = 256;

/// A listening socket, where there is one, and what waits for it and for the connections that it gave and
/// that were made. It tells nothing of those that are still to come.
#[derive(Drop)]
pub struct TcpNetwork<'r, R: Net> {
    rt: &'r R,
    listener: Option<TcpListener>,
    poll: Poll,
    events: Events<Global>,
    reports: Vec<u32>,
    begun: Instant,
    // the last moment that it gave
    moment: u64,
    faults: u64,
}

/// A socket that listens, and is waited for.
fn listener<R: Net>(rt: &R, poll: &Poll, address: SocketAddr) -> io::Result<TcpListener> {
    let mut listener = TcpListener::bind(rt, address)?;
    poll.registry()
        .register(&mut listener, LISTENER, Interest::READABLE)?;
    Ok(listener)
}

impl<'r, R: Net + Clock> TcpNetwork<'r, R> {
    /// A network that listens at an address; with none it accepts nothing. An error is the system's.
    pub fn open(
        rt: &'r R,
        alloc: Global,
        address: Option<SocketAddr>,
    ) -> io::Result<TcpNetwork<'r, R>> {
        let poll = Poll::new(rt)?;
        let listener = match address {
            Some(address) => Some(listener(rt, &poll, address)?),
            None => None,
        };
        Ok(TcpNetwork {
            rt,
            listener,
            poll,
            events: Events::with_capacity(alloc, MOST_EVENTS)?,
            reports: Vec::with_capacity(alloc, MOST_EVENTS)?,
            begun: Instant::now(rt)?,
            moment: 0,
            faults: 0,
        })
    }

    /// The address where it listens.
    pub fn address(&self) -> Option<SocketAddr> {
        self.listener.as_ref()?.local_addr().ok()
    }

    /// Has a connection waited for under a number. One that cannot be waited for is lost.
    fn register(&self, mut stream: TcpStream, number: u32) -> Option<Socket> {
        let _ = stream.set_nodelay(true);
        let both = Interest::READABLE | Interest::WRITABLE;
        let token = Token(number as usize);
        match self.poll.registry().register(&mut stream, token, both) {
            Ok(()) => Some(Socket::new(stream)),
            Err(_) => None,
        }
    }

    /// Why nothing was accepted, counted where nothing will be any more.
    fn refuse(&mut self, error: &Error) -> Refused
        ensures counted { self.new.faults ≡ refused_more {T = Unit {0}} (Err result) self.old.faults }
        ensures moment { self.new.moment ≡ self.old.moment }
        ensures reports { self.new.reports ≡ self.old.reports }
        ensures fault { (result ≡ Refused.Fault) ↔ (error_kind error.now ≡ ErrorKind.InvalidInput) }
        ensures memory { result ≡ Refused.NoMemory → ⊥ }
    {
        let refused = refusal_of(error.kind());
        if refused == Refused::Fault {
            self.faults = self.faults.saturating_add(1);
        }
        refused
    }
}

impl<R: Net + Clock> Network for TcpNetwork<'_, R> {
    type Conn = Socket;

    ghost waiting = { λ _. None };

    ghost moment = { λ network. network.moment };

    ghost reported = { λ network. network.reports.items };

    ghost made = { λ _. None };

    ghost faults = { λ network. network.faults };

    fn accept(&mut self, number: u32) -> Result<Socket, Refused> {
        let Some(listener) = &self.listener else {
            return Err(Refused::Nothing);
        };
        match listener.accept() {
            Ok((stream, _)) => self.register(stream, number).ok_or(Refused::Lost),
            Err(error) => Err(self.refuse(&error)),
        }
    }

    fn connect(&mut self, number: u32, address: NetAddr) -> Result<Option<Socket>, NoMemory> {
        match TcpStream::connect(self.rt, socket_address(address)) {
            Ok(stream) => Ok(self.register(stream, number)),
            Err(_) => Ok(None),
        }
    }

    fn wait(&mut self, most: u64) -> bool {
        self.reports.clear();
        if self
            .poll
            .poll(&mut self.events, Some(Duration::from_millis(most)))
            .is_err()
        {
            self.faults = self.faults.saturating_add(1);
            return false;
        }
        for event in self.events.iter() {
            let Ok(number) = u32::try_from(event.token().0) else {
                continue;
            };
            if self.reports.push(number).is_err() {
                break;
            }
        }
        true
    }

    fn reports(&self) -> &[u32] {
        &self.reports
    }

    fn time(&mut self) -> u64 {
        if let Ok(passed) = self.begun.elapsed(self.rt) {
            let passed = u64::try_from(passed.as_millis()).unwrap_or(u64::MAX);
            self.moment = self.moment.max(passed);
        }
        self.moment
    }
}

/// Why nothing was accepted, by the kind of the error: a connection that was lost before it was accepted is
/// no trouble; where the socket does not listen nothing will be accepted any more; and with any other, as
/// where descriptors are wanted or the network is down (accept(2)), it is tried again later.
fn refusal_of(kind: ErrorKind) -> Refused
    ensures nothing { (result ≡ Refused.Nothing) ↔ (kind ≡ ErrorKind.WouldBlock) }
    ensures lost { (result ≡ Refused.Lost) ↔ ((kind ≡ ErrorKind.Interrupted) ⊎ ((kind ≡ ErrorKind.ConnectionAborted) ⊎ (kind ≡ ErrorKind.ConnectionReset))) }
    ensures fault { (result ≡ Refused.Fault) ↔ (kind ≡ ErrorKind.InvalidInput) }
    ensures memory { result ≡ Refused.NoMemory → ⊥ }
{
    if kind == ErrorKind::WouldBlock {
        Refused::Nothing
    } else if kind == ErrorKind::Interrupted
        || kind == ErrorKind::ConnectionAborted
        || kind == ErrorKind::ConnectionReset
    {
        Refused::Lost
    } else if kind == ErrorKind::InvalidInput {
        Refused::Fault
    } else {
        Refused::Busy
    }
}
