//! What waits.

ghost use Rattle.std.specs.Prelude.{◌≡◌, ◌≤◌};
ghost use Rattle.std.specs.List.{position_or_len};
ghost use Rattle.packet_table.specs.Packets.{is_held, waits};
ghost use Rattle.packet_table.specs.PacketLines.{low_before};

use crate::note::PacketNote;
use cluster_model::NodeId;

/// Packets from one machine to another are held.
pub fn is_pair_among(held: &[(NodeId, NodeId)], from: NodeId, to: NodeId) -> bool
    ensures { result ≡ is_held held.now from to }
{
    held.iter().any(|pair| pair.0 == from && pair.1 == to)
}

/// A packet never came, and is not held.
fn waits(note: PacketNote, held: &[(NodeId, NodeId)]) -> bool
    ensures { result ≡ waits held.now note }
{
    !note.came && !is_pair_among(held, note.from, note.to)
}

/// The place of the first that waits, or behind all, where none of the first `low` does. It costs by those from there on, each by
/// how many pairs are held.
pub fn first_waiting(notes: &[PacketNote], held: &[(NodeId, NodeId)], low: usize) -> usize
    requires { low ≤ position_or_len (waits held.now) notes.now }
    ensures { result ≡ position_or_len (waits held.now) notes.now }
{
    let mut place = low;
    while place < notes.len() {
        if waits(notes[place], held) {
            return place;
        }
        place += 1;
    }
    place
}

/// Not behind the packet of this number, if there is one.
pub fn low_before(low: usize, number: Option<u64>) -> usize
    ensures { result ≡ low_before low number }
{
    match number {
        Some(number) => low.min((number as usize).saturating_sub(1)),
        None => low,
    }
}
