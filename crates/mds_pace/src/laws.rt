//! What holds of each event of a metadata server.

ghost use Rattle.std.specs.Prelude.{List, ℕ};
ghost use Rattle.device_addr.specs.Universal.{AddressValue};
ghost use Rattle.mds_rule.specs.MdsStates.{MdsValue};
ghost use Rattle.mds_walk.specs.MdsRuns.{MdsInput, MdsEvent, mds_run};
ghost use Rattle.mds_pace.specs.MdsPace.{NumbersTaken, PacesEvent, RepeatsKept};

/// Whatever a metadata server has, whenever it is and whatever comes, the record of a call that went before goes out
/// again only so (RFC 5531, section 9; RFC 8881, section 2.10.6.2):
///
/// - for a timeout, at most once, and it is the record of the call that timed out;
/// - at a tick, where each call that was sent and is not answered stands under its record's number, and that was taken:
///   the records of the calls that files kept for the tick, of each file at most one, in the order of the files;
/// - for a record that comes, a recall and a resilvering that are asked for, none.
///
/// Behind each run the calls stand so, and a tick sends exactly those. So what is to go out again later waits for a tick,
/// and a node that is given no tick twice at one moment sends it once for each moment.
pub fn repeat_law()
    ensures paces { (now : ℕ) (input : MdsInput) (m : MdsValue) → PacesEvent now input m }
    ensures taken { (servers : List AddressValue) (mirrors : ℕ) (events : List MdsEvent) → NumbersTaken (mds_run servers mirrors events).mds }
    ensures ticks { (servers : List AddressValue) (mirrors : ℕ) (events : List MdsEvent) (now : ℕ) → RepeatsKept now (mds_run servers mirrors events).mds }
{}
