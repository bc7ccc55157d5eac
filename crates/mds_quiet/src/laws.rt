//! What is left behind the calls that go out at the end of an event, and behind each event of every run.

ghost use Rattle.std.specs.Prelude.{List, Option, ℕ};
ghost use Rattle.device_addr.specs.Universal.{AddressValue};
ghost use Rattle.mds_rule.specs.MdsStates.{MdsValue};
ghost use Rattle.mds_walk.specs.MdsRuns.{MdsEvent};
ghost use Rattle.mds_quiet.specs.RecallLaw.{TickEndsRecalls};
ghost use Rattle.mds_quiet.specs.RestLaw.{FilesGoOut, ReadsGoOut, RecallsGoOut};
ghost use Rattle.mds_quiet.specs.CallCounts.{TicksLeaveFew};
ghost use Rattle.mds_quiet.specs.QuietRuns.{RunsRestFiles, RunsRestRecalls};

/// What is left behind the calls that go out at the end of an event, whatever a metadata server has then, while numbers are
/// left:
///
/// - of the own calls of a file none waits to be sent, where they waited in order: to at most four servers, whose places in
///   the live list, or 4, do not fall;
/// - of the READs of a file with at most four live mirrors none does;
/// - no recall may go, where recalls were in the order of their files, of at most one for each file that is there: each
///   that waits stands behind one of the same client whose callback is out.
pub fn rest_law()
    ensures files { (kept : List (Option (ℕ × ℕ))) (m : MdsValue) → FilesGoOut kept m }
    ensures reads { (kept : List (Option (ℕ × ℕ))) (m : MdsValue) → ReadsGoOut kept m }
    ensures recalls { (kept : List (Option (ℕ × ℕ))) (m : MdsValue) → RecallsGoOut kept m }
{}

/// Behind each event of every run of a metadata server, while numbers are left:
///
/// - with at most four mirrors to a file and as many data servers, of no file a call of its own, one of a write of the
///   metadata server's own, or a READ waits to be sent. So each has gone out in the event in which it came to wait;
/// - no recall may go: each that waits stands behind one of the same client whose callback is out.
pub fn quiet_law()
    ensures files { (servers : List AddressValue) (mirrors : ℕ) (events : List MdsEvent) → RunsRestFiles servers mirrors events }
    ensures recalls { (servers : List AddressValue) (mirrors : ℕ) (events : List MdsEvent) → RunsRestRecalls servers mirrors events }
{}

/// Behind a tick, whatever run of a metadata server came before it, with at most four mirrors to a file and as many data
/// servers, of the calls that are sent and not answered:
///
/// - of each file at most four are of its own activity (CREATEs, a fence's SETATTRs, a COMMIT, a copy's READ, WRITEs and
///   CREATEs), and none where it is free or held;
/// - of its READs no more than it has READs, and at most four of a write of the metadata server's own;
/// - of recalls no more than there are recalls.
pub fn counts_law()
    ensures { (servers : List AddressValue) (mirrors : ℕ) (events : List MdsEvent) (now : ℕ) → TicksLeaveFew servers mirrors events now }
{}

/// Behind a tick, whatever a metadata server has and whenever it is, no recall is left that was asked more than 90 s
/// before, and none waits for the next tick to be asked again (RFC 8881, section 20.3).
pub fn recall_law()
    ensures recalls { (now : ℕ) (m : MdsValue) → TickEndsRecalls now m }
{}
