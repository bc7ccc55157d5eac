//! What gives connections.

ghost use Rattle.std.specs.Prelude.{◌≡◌, ◌≤◌, ℕ, List, IfOk, OnErr};
ghost use Rattle.rpc_record.specs.Stream.{counted};
ghost use Rattle.record_server.specs.Network.{Waiting, Made, ComesNext, MakesOne, refused_more, waited_more};

use device_addr::NetAddr;
use ff_xdr::NoMemory;
use record_link::Stream;
use rpc_record::Failed;
use thiserror::Error;

/// Why no connection was accepted.
#[derive(Clone, Copy, Debug, PartialEq, Eq, Error)]
pub enum Refused {
    /// None waits.
    #[error("no connection waits")]
    Nothing,
    /// The one that waited was lost at once; another may wait.
    #[error("the connection was lost at once")]
    Lost,
    /// The system has no room for one now, or the network none to give.
    #[error("there is no room for a connection now")]
    Busy,
    /// None can be accepted any more.
    #[error("no connection can be accepted any more")]
    Fault,
    /// Memory was wanted.
    #[error("memory was wanted")]
    NoMemory,
}

/// What gives connections, makes them, and waits for them. No call but `wait` waits. Its moments are
/// milliseconds from one that it chooses, and never fall.
pub trait Network {
    /// What carries the bytes of one connection.
    type Conn: Stream + Drop;

    /// The bytes that each connection that is still to be accepted will give, in order, where the
    /// network tells them.
    ghost waiting: { Self → Waiting };

    /// The last moment that it gave.
    ghost moment: { Self → ℕ };

    /// What the last wait reported: the numbers of connections on which something may be done, and 0
    /// where one may be accepted.
    ghost reported: { Self → List ℕ };

    /// The tries to make a connection, in order, where it tells them: its number, or 0 where none was
    /// made, and to which address.
    ghost made: { Self → Made };

    /// How many calls have met a fault. The count stands still at `u64::MAX`.
    ghost faults: { Self → ℕ };

    /// Accepts one connection, which is reported by this number from then on; it is not 0. An error
    /// takes none of those that are told, and `Refused::Fault` is counted.
    fn accept(&mut self, number: u32) -> Result<Self::Conn, Refused>
        ensures told { IfOk result (λ conn. ComesNext (waiting self.old) (Self.Conn.coming conn) (waiting self.new)) }
        ensures stays { OnErr result (waiting self.new ≡ waiting self.old) }
        ensures moment { moment self.new ≡ moment self.old }
        ensures reported { reported self.new ≡ reported self.old }
        ensures made { made self.new ≡ made self.old }
        ensures faults { faults self.new ≡ refused_more result (faults self.old) };

    /// Begins to make a connection to an address, which is reported by this number from then on; it is
    /// not 0. Bytes go and come on it once it is made. `None` where it cannot be made.
    fn connect(&mut self, number: u32, address: NetAddr) -> Result<Option<Self::Conn>, NoMemory>
        ensures waiting { waiting self.new ≡ waiting self.old }
        ensures moment { moment self.new ≡ moment self.old }
        ensures reported { reported self.new ≡ reported self.old }
        ensures made { MakesOne (made self.old) number address result (made self.new) }
        ensures faults { faults self.new ≡ faults self.old };

    /// Waits until something can be done, for so many milliseconds at most, and answers whether it could
    /// wait. That it could not is a fault, and is counted.
    fn wait(&mut self, most: u64) -> bool
        ensures waiting { waiting self.new ≡ waiting self.old }
        ensures moment { moment self.new ≡ moment self.old }
        ensures made { made self.new ≡ made self.old }
        ensures faults { faults self.new ≡ waited_more result (faults self.old) };

    /// What the last wait reported.
    fn reports(&self) -> &[u32]
        ensures { result.now ≡ reported self.now };

    /// The moment.
    fn time(&mut self) -> u64
        ensures rises { moment self.old ≤ result }
        ensures kept { moment self.new ≡ result }
        ensures waiting { waiting self.new ≡ waiting self.old }
        ensures reported { reported self.new ≡ reported self.old }
        ensures made { made self.new ≡ made self.old }
        ensures faults { faults self.new ≡ faults self.old };
}

/// What a network is made by.
pub trait Host {
    /// The network.
    type Net: Network + Drop;

    /// How many calls have met a fault. The count stands still at `u64::MAX`.
    ghost faults: { Self → ℕ };

    /// A network that listens at an address; with none it accepts nothing. `Failed::Fault` is that
    /// there is none, and is counted.
    fn network(&mut self, address: Option<NetAddr>) -> Result<Self::Net, Failed>
        ensures { faults self.new ≡ counted result (faults self.old) };
}
