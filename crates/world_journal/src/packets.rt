//! What machines send, as packets.

ghost use Rattle.std.specs.Prelude.{◌≡◌, ◌+◌, ◌<◌, ◌^◌, ◌++◌, length, OnOk};
ghost use Rattle.world_journal.specs.SentPackets.{packets_of};

use cluster_model::{Entry, NodeId};
use ff_xdr::{Data, NoMemory};

/// Adds a packet for each record that a machine sends, with the numbers behind `sent`. At an error a
/// part may stand.
pub fn push_packets(
    entries: &mut Vec<Entry>,
    from: NodeId,
    sent: u64,
    sends: Vec<(NodeId, Data)>,
) -> Result<(), NoMemory>
    requires { sent + length sends.items < 2 ^ 64 }
    ensures { OnOk result (entries.new.items ≡ entries.old.items ++ packets_of from sent sends.items) }
{
    let mut number = sent;
    for (to, bytes) in sends {
        number += 1;
        entries.push(Entry::Packet {
            number,
            from,
            to,
            bytes,
        })?;
    }
    Ok(())
}
