//! Two machines as one number.

ghost use Rattle.std.specs.Prelude.{◌≡◌, ◌<◌, ◌^◌};
ghost use Rattle.packet_table.specs.PacketLines.{node_key, pair_key, IsMachine};

use cluster_model::NodeId;

/// A machine as a number, below 2^34.
fn node_key(node: NodeId) -> u128
    ensures exact { result ≡ node_key node }
    ensures small { result < 2 ^ 34 }
    ensures machine { IsMachine node }
{
    match node {
        NodeId::Mds => 0,
        NodeId::Server(number) => 1 + u128::from(number),
        NodeId::Client(number) => 4_294_967_297 + u128::from(number),
    }
}

/// Two machines as one number, which no other two have.
pub fn pair_key(from: NodeId, to: NodeId) -> u128
    ensures exact { result ≡ pair_key from to }
    ensures machines { IsMachine from × IsMachine to }
{
    node_key(from) * 17_179_869_184 + node_key(to)
}
