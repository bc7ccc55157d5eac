//! On which connection each node is called.

ghost use Rattle.std.specs.Prelude.{◌≡◌, ◌==◌, ◌&&◌, Some, true, false, position};
ghost use Rattle.cluster_model.specs.declared.ids.NodeId.{NodeId};
ghost use Rattle.cluster_model.specs.Nodes.{is_node};
ghost use Rattle.node_link.specs.Callees.{callee_in, is_connected_to, own_connection, IsFrom, PutsCallee};

use cluster_model::NodeId;
use ff_xdr::NoMemory;
use std::alloc::Global;
use std::marker::Model;

/// The number of the connection on which each node is called: one that was made to it, or a client's own. Of a
/// node to which none was made there is no entry.
#[derive(Debug, Drop)]
pub struct Callees {
    entries: Vec<(NodeId, u32)>,
}

impl Model for Callees {
    ghost use Rattle.node_link.specs.Callees.{CalleesValue};

    ghost Value = { CalleesValue };

    ghost use Rattle.node_link.specs.Callees.{AreOnce};

    ghost view = { λ c. c.entries.items };

    ghost invariant = { λ c. AreOnce c.entries.items };
}

/// The place of the entry of a node.
fn place_of(entries: &[(NodeId, u32)], node: NodeId) -> Option<usize>
    ensures { result ≡ position (λ entry. is_node entry.0 node) entries.now }
{
    entries.iter().position(|entry| is_of(entry, node))
}

/// The entry is of this node.
fn is_of(entry: &(NodeId, u32), node: NodeId) -> bool
    ensures { result ≡ is_node entry.now.0 node }
{
    entry.0 == node
}

/// The number of the connection on which a node is called where none was made to it: a client's own, or 0.
fn own_connection(node: NodeId) -> u32
    ensures { result ≡ own_connection node }
{
    match node {
        NodeId::Mds => 0,
        NodeId::Server(_) => 0,
        NodeId::Client(number) => number,
    }
}

impl Callees {
    /// No connection was made; takes no memory.
    pub fn new(alloc: Global) -> Callees
        ensures { (node : NodeId) → callee_in result node ≡ own_connection node }
    {
        Callees {
            entries: Vec::new(alloc),
        }
    }

    /// The number of the connection on which a node is called.
    pub fn get(&self, node: NodeId) -> u32
        ensures { result ≡ callee_in self.now node }
    {
        match place_of(&self.entries, node) {
            Some(place) => self.entries[place].1,
            None => own_connection(node),
        }
    }

    /// A node is called on this connection from now on. At an error nothing has changed.
    pub fn put(&mut self, node: NodeId, number: u32) -> Result<(), NoMemory>
        ensures { PutsCallee node number self.old result self.new }
    {
        if let Some(place) = place_of(&self.entries, node) {
            self.entries[place] = (node, number);
            return Ok(());
        }
        self.entries.push((node, number))?;
        Ok(())
    }

    /// From which node a record is that came on the connection of this number.
    pub fn from(&self, number: u32) -> NodeId
        ensures { IsFrom number self.now result }
    {
        for (node, connection) in &self.entries {
            if is_made_as(*node, *connection, number) {
                return *node;
            }
        }
        NodeId::Client(number)
    }
}

/// The node is called on a connection of this number that was made to it.
fn is_made_as(node: NodeId, connection: u32, number: u32) -> bool
    ensures { result ≡ (is_connected_to node && connection == number) }
{
    is_connected_to(node) && connection == number
}

/// A node that is called on connections that are made to it.
fn is_connected_to(node: NodeId) -> bool
    ensures { result ≡ is_connected_to node }
{
    match node {
        NodeId::Mds => true,
        NodeId::Server(_) => true,
        NodeId::Client(_) => false,
    }
}
