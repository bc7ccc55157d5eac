//! What one step may draw.

ghost use Rattle.std.specs.Prelude.{◌↔◌, ◌≡◌, ◌-◌, IsTrue};
ghost use Rattle.file_rule.specs.FilePhases.{end_of_uids};
ghost use Rattle.mds_rows.specs.Draws.{HasFresh};

use file_rule::Fresh;

/// Behind the last uid, which is 4,294,967,293.
const END_OF_UIDS: u32 = 4_294_967_294;

/// What one step may draw is there: a uid, and a number of a name for each of four targets.
pub fn has_fresh(fresh: &Fresh) -> bool
    ensures { IsTrue result ↔ HasFresh fresh.now }
{
    fresh.uid < END_OF_UIDS && fresh.name < u64::MAX - 3
}

/// How many uids are left from the next one on.
pub fn uids_left(fresh: &Fresh) -> u32
    requires { HasFresh fresh.now }
    ensures { result ≡ end_of_uids - fresh.now.uid }
{
    END_OF_UIDS - fresh.uid
}
