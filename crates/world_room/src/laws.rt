//! The room for numbers of a world.

ghost use Rattle.world_room.specs.WorldRoom.{EachSmallWorldIsRoomy};

use mds_room::room_law;

/// A world of few clients and data servers whose journal has few entries, which are in range, has room for numbers at each moment:
/// its metadata server has uids and names left, no slot has run out of numbers, and each client has verifiers left (RFC 8881,
/// sections 2.10.6.1 and 18.35).
pub fn world_room()
    ensures roomy { EachSmallWorldIsRoomy }
{
    room_law();
}
