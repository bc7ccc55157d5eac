//! A network over memory.

ghost use Rattle.std.specs.Prelude.{◌≡◌, [], Some};
ghost use Rattle.rpc_record.specs.Stream.{counted, one_more};

use crate::network::{Host, Network, Refused};
use device_addr::NetAddr;
use ff_xdr::NoMemory;
use record_link::MemoryStream;
use rpc_record::Failed;
use std::alloc::Global;
use std::collections::VecDeque;

/// A network that gives what it was told to: to each `accept` the next of some streams or refusals, and none
/// behind them; to each `connect` the next of others, and none behind them. Each wait takes the next of some
/// times, `None` being that it fails, and behind them as long as it may; it reports nothing, so that all is
/// tried. It tells each try to make a connection.
#[derive(Drop)]
pub struct MemoryNetwork {
    coming: VecDeque<Result<MemoryStream, Refused>>,
    to_make: VecDeque<Option<MemoryStream>>,
    // each try to make a connection: its number, or 0 where none was made, and to which address
    made: Vec<(u32, NetAddr)>,
    waits: VecDeque<Option<u64>>,
    // its clock, which its waits set forward
    time: u64,
    // the last moment that it gave
    given: u64,
    faults: u64,
}

impl MemoryNetwork {
    /// A network that gives these. It takes its memory from `alloc`.
    pub fn new(
        alloc: Global,
        coming: Vec<Result<MemoryStream, Refused>>,
        to_make: Vec<Option<MemoryStream>>,
        waits: Vec<Option<u64>>,
    ) -> MemoryNetwork
        ensures coming { result.coming.items ≡ coming.items }
        ensures to_make { result.to_make.items ≡ to_make.items }
        ensures made { result.made.items ≡ [] }
        ensures waits { result.waits.items ≡ waits.items }
        ensures time { result.time ≡ 0 }
        ensures given { result.given ≡ 0 }
        ensures faults { result.faults ≡ 0 }
    {
        MemoryNetwork {
            coming: VecDeque::from_vec(coming),
            to_make: VecDeque::from_vec(to_make),
            made: Vec::new(alloc),
            waits: VecDeque::from_vec(waits),
            time: 0,
            given: 0,
            faults: 0,
        }
    }
}

impl MemoryNetwork {
    /// The tries to make a connection, in order: its number, or 0 where none was made, and to which address.
    pub fn made(&self) -> &[(u32, NetAddr)]
        ensures { result.now ≡ self.now.made.items }
    {
        &self.made
    }
}

impl Network for MemoryNetwork {
    ghost use Rattle.std.specs.Prelude.{[], Some};
    ghost use Rattle.record_server.specs.Memory.{streams_in};

    type Conn = MemoryStream;

    ghost waiting = { λ n. Some (streams_in n.coming.items) };

    ghost moment = { λ n. n.given };

    ghost reported = { λ _. [] };

    ghost made = { λ n. Some n.made.items };

    ghost faults = { λ n. n.faults };

    fn accept(&mut self, _number: u32) -> Result<MemoryStream, Refused> {
        match self.coming.pop_front() {
            Some(Ok(stream)) => Ok(stream),
            Some(Err(refused)) => {
                if refused == Refused::Fault {
                    self.faults = self.faults.saturating_add(1);
                }
                Err(refused)
            }
            None => Err(Refused::Nothing),
        }
    }

    fn connect(&mut self, number: u32, address: NetAddr) -> Result<Option<MemoryStream>, NoMemory> {
        let Some(Some(stream)) = self.to_make.pop_front() else {
            self.made.push((0, address))?;
            return Ok(None);
        };
        self.made.push((number, address))?;
        Ok(Some(stream))
    }

    fn wait(&mut self, most: u64) -> bool {
        let Some(takes) = self.waits.pop_front().unwrap_or(Some(most)) else {
            self.faults = self.faults.saturating_add(1);
            return false;
        };
        self.time = self.time.saturating_add(takes);
        true
    }

    fn reports(&self) -> &[u32] {
        &[]
    }

    fn time(&mut self) -> u64 {
        self.given = self.given.max(self.time);
        self.given
    }
}

/// A host whose network is one over memory, for once.
#[derive(Drop)]
pub struct MemoryHost {
    network: Option<MemoryNetwork>,
    faults: u64,
}

impl MemoryHost {
    /// A host that gives this network, for the first that asks.
    pub fn new(network: MemoryNetwork) -> MemoryHost
        ensures network { result.network ≡ Some network }
        ensures faults { result.faults ≡ 0 }
    {
        MemoryHost {
            network: Some(network),
            faults: 0,
        }
    }
}

impl Host for MemoryHost {
    type Net = MemoryNetwork;

    ghost faults = { λ host. host.faults };

    fn network(&mut self, _address: Option<NetAddr>) -> Result<MemoryNetwork, Failed> {
        match self.network.take() {
            Some(network) => Ok(network),
            None => {
                self.faults = self.faults.saturating_add(1);
                Err(Failed::Fault)
            }
        }
    }
}
