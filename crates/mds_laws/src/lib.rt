//! What holds of every run of a metadata server.
#![tactic(auto)]

ghost use Rattle.std.specs.Prelude.{ℕ, List};
ghost use Rattle.device_addr.specs.Universal.{AddressValue};
ghost use Rattle.mds_walk.specs.MdsRuns.{MdsEvent};
ghost use Rattle.mds_laws.specs.MdsRunLaws.{NumbersAscend, NumbersFit, CallsByUids, GrantsFreeFiles, GrantsUidsOnce};
ghost use Rattle.mds_laws.specs.HandedLayouts.{HandsLayoutsToHolders, TakesNoLayoutAway};
ghost use Rattle.mds_laws.specs.OwnPeriods.{RunsOwnPeriods};
ghost use Rattle.mds_laws.specs.SlotUses.{RequestsTakeEffectOnce, RepeatsChangeNothing};

use table_slots::table_slots_law;

/// What holds of every run of a metadata server, whatever bytes come, in whatever order:
///
/// - each call that goes out has a number above those of all calls before it, or went out before, the same again
///   (RFC 5531, section 9);
/// - each of these numbers is from 1 to 4,294,967,295: behind the last, no new call goes out;
/// - a CREATE, a SETATTR and a READ go out by uid 0, a WRITE by a uid that was drawn, which are 65,536 and above, new or
///   repeated (RFC 8435, section 2.2);
/// - a file is granted only where the last that was entered of how it stands is that it is free: never while it is made
///   or held, nor before the fence behind a period is done (RFC 8435, section 2.2);
/// - a uid is granted once: for one file, to one holder, for one period (RFC 8435, section 2.2).
pub fn mds_run_law()
    ensures numbers { (servers : List AddressValue) (mirrors : ℕ) (events : List MdsEvent) → NumbersAscend servers mirrors events }
    ensures words { (servers : List AddressValue) (mirrors : ℕ) (events : List MdsEvent) → NumbersFit servers mirrors events }
    ensures uids { (servers : List AddressValue) (mirrors : ℕ) (events : List MdsEvent) → CallsByUids servers mirrors events }
    ensures grants { (servers : List AddressValue) (mirrors : ℕ) (events : List MdsEvent) → GrantsFreeFiles servers mirrors events }
    ensures fresh { (servers : List AddressValue) (mirrors : ℕ) (events : List MdsEvent) → GrantsUidsOnce servers mirrors events }
{}

/// What holds of every LAYOUTGET, of whatever arguments, on whatever server (RFC 8881, section 18.43; RFC 8435, section
/// 2.2):
///
/// - where it goes through, it puts into its compound the layout of the current file as it then stands, under its uid,
///   and the client of the compound is then the one that holds it;
/// - it goes through only where the file was free, or was that client's already.
pub fn handed_layouts_law()
    ensures hands { HandsLayoutsToHolders }
    ensures own { TakesNoLayoutAway }
{}

/// What holds of the requests of slots, whatever comes to a metadata server:
///
/// - of each slot of each session, the kth request that takes effect has the number k modulo 2^32: among 2^32 that follow
///   each other none takes effect twice, whatever is sent again;
/// - a compound whose SEQUENCE does not take effect is answered by the reply that is kept, or by its refusal, and changes
///   nothing but the node that its session is bound to (RFC 8881, section 2.10.6.1).
pub fn slot_law()
    ensures once { (servers : List AddressValue) (mirrors : ℕ) (events : List MdsEvent) → RequestsTakeEffectOnce servers mirrors events }
    ensures repeats { RepeatsChangeNothing }
{
    table_slots_law();
}

/// What the entries of each run say of the metadata server's own periods (RFC 8881, section 18.32): each grant to it is
/// directly followed by its write, which has bytes, and no write stands elsewhere; each write that is told as committed was
/// sent before, and its period ends directly behind it, and only so.
pub fn own_periods_law()
    ensures periods { (servers : List AddressValue) (mirrors : ℕ) (events : List MdsEvent) → RunsOwnPeriods servers mirrors events }
{}
