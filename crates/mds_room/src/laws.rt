//! The room for numbers that a run of a metadata server has at each moment.

ghost use Rattle.mds_room.specs.Room.{RunsHaveRoom, SetupStays, ShortRunsHaveRoom};

/// A run of a metadata server that has uids and names left at its end has them at each moment; and where the fileids of the mirrors
/// that come into a live list fit their form (RFC 1813, section 2.5), a file has at most four mirrors, and fewer records came than a
/// slot has numbers (RFC 8881, section 2.10.6.1), all numbers have room at each moment. Uids are drawn no faster than entries are
/// made, one more for each file, so a run of few entries has some left. What it
/// was set up with stays: its data servers, and how many mirrors it wants.
pub fn room_law()
    ensures room { RunsHaveRoom }
    ensures short { ShortRunsHaveRoom }
    ensures setup { SetupStays }
{}
