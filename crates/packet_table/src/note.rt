//! What is noted of a packet.

ghost use Rattle.std.specs.Prelude.{◌≡◌, ◌≤◌, ◌-◌, length, IfSome};
ghost use Rattle.packet_table.specs.Packets.{came_at};
ghost use Rattle.packet_table.specs.PacketLines.{numbered_in, has_come};

use cluster_model::NodeId;

/// What is noted of a packet that was sent.
#[derive(Clone, Copy, Debug, PartialEq, Eq)]
pub struct PacketNote {
    pub from: NodeId,
    pub to: NodeId,
    /// Where it stands in the journal, from 0.
    pub place: u64,
    /// It came at least once.
    pub came: bool,
}

/// The packet of this number.
pub fn numbered(number: u64, notes: &[PacketNote]) -> Option<PacketNote>
    ensures exact { result ≡ numbered_in notes.now number }
    ensures within { IfSome result (λ _. (1 ≤ number) × (number ≤ length notes.now)) }
{
    let place = number.checked_sub(1)?;
    notes.get(place as usize).copied()
}

/// The packet of this number is there, and came.
pub fn has_come(number: u64, notes: &[PacketNote]) -> bool
    ensures { result ≡ has_come notes.now number }
{
    match numbered(number, notes) {
        Some(note) => note.came,
        None => false,
    }
}

/// The packet of this number came, if there is one.
pub fn mark_came(number: u64, notes: &mut Vec<PacketNote>)
    ensures { notes.new.items ≡ came_at notes.old.items (number - 1) (numbered_in notes.old.items number) }
{
    let Some(note) = numbered(number, notes.as_slice()) else {
        return;
    };
    notes[number as usize - 1] = PacketNote { came: true, ..note };
}
