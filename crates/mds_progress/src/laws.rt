//! What holds of each tick of a metadata server.

ghost use Rattle.std.specs.Prelude.{List, Option, ℕ};
ghost use Rattle.mds_rule.specs.MdsStates.{MdsValue};
ghost use Rattle.mds_progress.specs.FirstOut.{FirstGoesOut};
ghost use Rattle.mds_progress.specs.TickLaw.{AwaitsEach, SendsKept, TickKeepsNothing};

/// Whatever a metadata server has, and whenever it is:
///
/// - while uids and names are left, no file keeps a call behind a tick: a fence's SETATTR, a CREATE, a COMMIT or a copy's
///   READ that was kept behind its third timeout is outstanding again, with its counts at zero (RFC 8435, section 2.2);
/// - the record of each that was kept, where it is among the calls that were sent, goes out in the tick, as it was sent
///   (RFC 5531, section 9);
/// - behind a tick each call that was sent and is not answered is awaited: what has ended leaves none.
pub fn tick_law()
    ensures keeps { (now : ℕ) (m : MdsValue) → TickKeepsNothing now m }
    ensures sends { (now : ℕ) (m : MdsValue) → SendsKept now m }
    ensures awaits { (now : ℕ) (m : MdsValue) → AwaitsEach now m }
{}

/// What goes out at the end of an event, whatever a metadata server has then:
///
/// - while numbers are left, each file with at most four live mirrors to which calls of its own wait (a CREATE, a fence's
///   SETATTR, a COMMIT, a copy's READ or WRITE, the calls of a write of its own) has one out to the server that the first
///   of them waits for. So a file whose first call waits waits for an answer or a timeout, and not for a further event.
pub fn out_law()
    ensures { (kept : List (Option (ℕ × ℕ))) (m : MdsValue) → FirstGoesOut kept m }
{}
