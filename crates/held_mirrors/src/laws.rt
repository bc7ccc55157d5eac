//! What the journal of a bound run says of the mirrors of a period.

ghost use Rattle.std.specs.Prelude.{ℕ, List};
ghost use Rattle.cluster_laws.specs.Machine.{Move};
ghost use Rattle.held_mirrors.specs.HeldMirrors.{EachGrantIsHeld, EachHolderOwns};

use cluster_model::server_guards;

/// Of every run in which holders do what they may:
///
/// - each period that the journal begins is held by somebody, with the mirrors that were live then;
/// - until the journal enters that it ended, each of these mirrors belongs to its uid: no data server refuses a call of
///   that uid as a stranger's (RFC 8435, section 2.2; RFC 1813, section 2.6).
pub fn held_mirrors()
    ensures holdings { (boots : List ℕ) (moves : List Move) → EachGrantIsHeld boots moves }
    ensures owners { (boots : List ℕ) (moves : List Move) → EachHolderOwns boots moves }
{
    server_guards();
}
