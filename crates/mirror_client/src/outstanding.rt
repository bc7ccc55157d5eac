//! What is outstanding at the nodes that a client calls.

ghost use Rattle.std.specs.Prelude.{◌≡◌};
ghost use Rattle.mirror_client.specs.ClientRule.{ds_outstanding, bears_number, outstanding_to};

use client_state::State;
use cluster_model::NodeId;

/// The number of the call that is outstanding at a data server.
fn ds_outstanding(client: &State, server: u32) -> Option<u32>
    ensures { result ≡ ds_outstanding client.now.file client.now.layout server }
{
    if client.file.is_none() {
        return None;
    }
    let Some(layout) = &client.layout else {
        return None;
    };
    let Some((xid, _call)) = layout.writer.call_to(server) else {
        return None;
    };
    Some(xid)
}

/// The number of the call that is outstanding at a node.
fn outstanding_to(client: &State, to: NodeId) -> Option<u32>
    ensures { result ≡ outstanding_to to client.now }
{
    match to {
        NodeId::Mds => match &client.asked {
            Some(asked) => Some(asked.xid),
            None => None,
        },
        NodeId::Server(server) => ds_outstanding(client, server),
        NodeId::Client(_) => None,
    }
}

/// The call of this number is outstanding at a node.
pub fn is_outstanding_at(client: &State, to: NodeId, xid: u32) -> bool
    ensures { result ≡ bears_number xid (outstanding_to to client.now) }
{
    match outstanding_to(client, to) {
        Some(out) => out == xid,
        None => false,
    }
}
