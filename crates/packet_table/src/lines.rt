//! The lines of all machines.

ghost use Rattle.std.specs.Prelude.{◌≡◌, slice_get, OnOk, OnErr};
ghost use Rattle.packet_table.specs.PacketLines.{line_at, numbers_in, front_in, with_number, with_front, ChangesLine, HasFront, MovesFront};

use crate::line::PacketLine;
use crate::note::PacketNote;
use ff_xdr::NoMemory;
use indexmap::IndexMap;

/// The number at a place of a line.
pub fn number_at(lines: &IndexMap<u128, PacketLine>, key: u128, place: usize) -> Option<u64>
    ensures { result ≡ slice_get (numbers_in (line_at lines.now.entries key)) place }
{
    lines.get(&key)?.get(place)
}

/// A number goes behind those of its line, which is a new one where there is none. Takes memory; where it is wanted nothing has
/// changed.
pub fn put_number(
    lines: &mut IndexMap<u128, PacketLine>,
    key: u128,
    number: u64,
) -> Result<(), NoMemory>
    ensures ok { OnOk result (ChangesLine key (with_number number) lines.old.entries lines.new.entries) }
    ensures err { OnErr result (lines.new.entries ≡ lines.old.entries) }
{
    if let Some(line) = lines.get_mut(&key) {
        return line.push(number);
    }
    let line = PacketLine::of(number, *lines.allocator())?;
    lines.insert(key, line)?;
    Ok(())
}

/// Where the first packet of a line stands that has not come, or behind all. It costs by those that came behind the line's front.
pub fn front_of(lines: &IndexMap<u128, PacketLine>, key: u128, notes: &[PacketNote]) -> usize
    requires { HasFront notes.now (line_at lines.now.entries key) }
    ensures { MovesFront notes.now (numbers_in (line_at lines.now.entries key)) (front_in (line_at lines.now.entries key)) result }
{
    match lines.get(&key) {
        Some(line) => line.front_among(notes),
        None => 0,
    }
}

/// So many of the first of a line are known to have come.
pub fn set_front(lines: &mut IndexMap<u128, PacketLine>, key: u128, front: usize)
    ensures { ChangesLine key (with_front front) lines.old.entries lines.new.entries }
{
    if let Some(line) = lines.get_mut(&key) {
        line.set_front(front);
    }
}
