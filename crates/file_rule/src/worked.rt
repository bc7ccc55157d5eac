//! Files that are worked out by hand.

ghost use Rattle.std.specs.Prelude.{◌≡◌};
ghost use Rattle.file_rule.specs.WorkedFiles.{clean_period, clean_period_shown, dirty_end, dirty_end_shown, last_stays, last_stays_shown, added, added_shown, own_write, own_write_shown};

/// Files that are worked out by hand, turn by turn: a period that ends with a return, and its fence; one whose lease ends,
/// with the copy behind it; a fence in which mirrors fail, of which the last stays; a mirror that is added; a write of the
/// metadata server that fails at one mirror, and a report of the only one (RFC 8435, sections 2.2 and 8.3).
pub fn worked_files()
    ensures clean_period { clean_period ≡ clean_period_shown }
    ensures dirty_end { dirty_end ≡ dirty_end_shown }
    ensures last_stays { last_stays ≡ last_stays_shown }
    ensures added { added ≡ added_shown }
    ensures own_write { own_write ≡ own_write_shown }
{}
