//! What joins a node to others.

ghost use Rattle.std.specs.Prelude.{◌≡◌, ℕ, List, Option};
ghost use Rattle.rpc_record.specs.Stream.{counted};
ghost use Rattle.cluster_model.specs.declared.ids.NodeId.{NodeId};
ghost use Rattle.node_link.specs.declared.link.Arrival.{Arrival};
ghost use Rattle.node_link.specs.declared.link.Opening.{Opening};
ghost use Rattle.node_link.specs.Link.{Gives, GivesReady, OpensLink, HandsOver, address_numbered, opening_of, own_address};

use cluster_model::NodeId;
use device_addr::NetAddr;
use ff_xdr::{Data, NoMemory};
use node_config::Config;
use rpc_record::Failed;

/// What a node is in its cluster.
#[derive(Clone, Copy, Debug, PartialEq, Eq)]
pub enum Role {
    /// The metadata server.
    Mds,
    /// A data server, by its own number.
    Server,
    /// A client, by its own number.
    Client,
}

/// What comes from a link.
#[derive(Debug, Drop)]
pub enum Arrival {
    /// A record of a node.
    Record {
        /// The node that sent it.
        from: NodeId,
        /// Its bytes, without their marking (RFC 5531, section 11).
        bytes: Data,
    },
    /// The call of this number to this node got no answer in time.
    TimedOut {
        /// The node that was called.
        node: NodeId,
        /// The number of the call.
        xid: u32,
    },
    /// Nothing came for a while: time passes.
    Quiet,
    /// Nothing more comes.
    Closed,
}

/// What a link was opened with.
#[derive(Clone, Copy, Debug, PartialEq, Eq)]
pub struct Opening {
    /// The node's role.
    pub role: Role,
    /// The node's own number.
    pub own: u32,
    /// The address where it listens; a client has none.
    pub address: Option<NetAddr>,
}

/// The address where a node in this role listens; a client has none.
fn own_address(config: &Config, role: Role) -> Option<NetAddr>
    ensures { result ≡ own_address config.now role }
{
    match role {
        Role::Mds => Some(config.mds),
        Role::Server => address_numbered(&config.servers, config.own),
        Role::Client => None,
    }
}

/// The address of this number, from 1.
pub(crate) fn address_numbered(servers: &[NetAddr], number: u32) -> Option<NetAddr>
    ensures { result ≡ address_numbered servers.now number }
{
    if number == 0 {
        return None;
    }
    servers.get(number as usize - 1).copied()
}

impl Opening {
    /// How a link is opened for a node in this role.
    pub fn of(config: &Config, role: Role) -> Opening
        ensures { result ≡ opening_of config.now role }
    {
        Opening {
            role,
            own: config.own,
            address: own_address(config, role),
        }
    }
}

/// A link to the other nodes of the cluster.
pub trait Link {
    /// How many calls have met a fault of the other side. The count stands still at `u64::MAX`.
    ghost faults: { Self → ℕ };

    /// What it was last opened with.
    ghost opened: { Self → Option Opening };

    /// What comes from here on, where the link tells it.
    ghost coming: { Self → Option (List Arrival) };

    /// The records that were handed to it so far, in order, where the link tells them.
    ghost sent: { Self → Option (List (NodeId × List ℕ)) };

    /// All that was handed to it went to the streams that take it.
    ghost has_given: { Self → Type 0 };

    /// Makes the link ready for a node in its role. `Failed::Fault` is counted.
    fn open(&mut self, config: &Config, role: Role) -> Result<(), Failed>
        ensures opened { OpensLink (opened self.old) config.now role result (opened self.new) }
        ensures coming { coming self.new ≡ coming self.old }
        ensures sent { sent self.new ≡ sent self.old }
        ensures faults { faults self.new ≡ counted result (faults self.old) };

    /// What comes next. `Arrival::Closed` where nothing more comes. An error takes nothing from what is
    /// to come, and `Failed::Fault` is counted.
    fn next(&mut self) -> Result<Arrival, Failed>
        ensures told { Gives (coming self.old) result (coming self.new) }
        ensures opened { opened self.new ≡ opened self.old }
        ensures sent { sent self.new ≡ sent self.old }
        ensures faults { faults self.new ≡ counted result (faults self.old) };

    /// A record that has come already, so that none is waited for; where there is none nothing is taken from what is to
    /// come.
    fn ready(&mut self) -> Option<(NodeId, Data)>
        ensures told { GivesReady (coming self.old) result (coming self.new) }
        ensures opened { opened self.new ≡ opened self.old }
        ensures sent { sent self.new ≡ sent self.old }
        ensures faults { faults self.new ≡ faults self.old };

    /// Sends a record to a node. A record that cannot be sent is lost, which is no fault. At an error
    /// nothing was sent.
    fn send(&mut self, to: NodeId, message: Data) -> Result<(), NoMemory>
        ensures told { HandsOver (sent self.old) to message result (sent self.new) }
        ensures opened { opened self.new ≡ opened self.old }
        ensures coming { coming self.new ≡ coming self.old }
        ensures faults { faults self.new ≡ faults self.old };

    /// A call that came from this node gets no answer, so none is waited for before its connection is closed.
    fn excuse(&mut self, from: NodeId)
        ensures opened { opened self.new ≡ opened self.old }
        ensures coming { coming self.new ≡ coming self.old }
        ensures sent { sent self.new ≡ sent self.old }
        ensures faults { faults self.new ≡ faults self.old };

    /// Gives all that was handed to it to the streams that take it: one that takes nothing for two seconds
    /// is given up. It is called when a node ends.
    fn finish(&mut self)
        ensures given { has_given self.new }
        ensures opened { opened self.new ≡ opened self.old }
        ensures coming { coming self.new ≡ coming self.old }
        ensures sent { sent self.new ≡ sent self.old }
        ensures faults { faults self.new ≡ faults self.old };
}
