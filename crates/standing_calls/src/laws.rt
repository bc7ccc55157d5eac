//! What a metadata server waits for was sent, and is not answered.

ghost use Rattle.std.specs.Prelude.{ℕ, List, true, ◌≡◌};
ghost use Rattle.device_addr.specs.Universal.{AddressValue};
ghost use Rattle.mds_rule.specs.ServedFiles.{has_fresh};
ghost use Rattle.mds_walk.specs.MdsRuns.{MdsEvent, mds_run};
ghost use Rattle.standing_calls.specs.RecallCalls.{RecallCallsStand};
ghost use Rattle.standing_calls.specs.Standing.{CallsStand};

/// Behind every run of a metadata server, whatever came:
///
/// - while uids and names are left, each call that a file has out (a CREATE, a fence's SETATTR, a COMMIT, a copy's READ,
///   WRITE or CREATE), that a READ has out to the mirror whose turn it is, or that a write of the server's own has out to
///   a mirror, is among the calls that were sent and are not answered: to that data server, under that number, and sent
///   for that file, READ or write (RFC 5531, section 9). So its answer is taken, and its timeout comes;
/// - the same of the callback of each recall that is out (RFC 8881, section 20.3), but where nothing was ever sent under
///   its number, as its client had no session then.
pub fn stands_law()
    ensures calls { (servers : List AddressValue) (mirrors : ℕ) (events : List MdsEvent) → has_fresh (mds_run servers mirrors events).mds.fresh ≡ true → CallsStand (mds_run servers mirrors events).mds }
    ensures recalls { (servers : List AddressValue) (mirrors : ℕ) (events : List MdsEvent) → RecallCallsStand (mds_run servers mirrors events) }
{}
