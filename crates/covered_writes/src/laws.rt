//! What COMMIT and the verifier cover.

ghost use Rattle.std.specs.Prelude.{ℕ, List, length, ◌<◌};
ghost use Rattle.cluster_model.specs.declared.ids.MirrorId.{MirrorId};
ghost use Rattle.cluster_model.specs.Content.{Pending};
ghost use Rattle.cluster_laws.specs.Machine.{Move, new_machine, machine_after, journal_of};
ghost use Rattle.cluster_laws.specs.FenceLaw.{new_servers};
ghost use Rattle.cluster_laws.specs.Holders.{IsCovered, IsIn};
ghost use Rattle.sound_journals.specs.Marks.{marks_of};
ghost use Rattle.covered_writes.specs.CoveredWrites.{AreAnswered, AreWritesCalled};

/// Of every run of the cluster's machine, whoever sends what. A WRITE that was answered, and a COMMIT that went out behind
/// the answer and was answered with the same verifier, show that the mirror had the write and then committed it: it is among
/// what the journal says was applied under the user before a COMMIT in the same boot (RFC 1813, sections 3.3.7 and 3.3.21).
/// Each reply names its call, which stands below it, and is of its kind. Each write that was applied was sent, under
/// its user.
pub fn covered_writes()
    ensures covered { (boots : List ℕ) (moves : List Move) (uid : ℕ) (id : MirrorId) (w : Pending) → 0 < length w.bytes → IsCovered (machine_after (new_machine (new_servers 1 boots)) moves).packets uid id w → IsIn w (marks_of (journal_of (new_machine (new_servers 1 boots)) moves) uid id).covered }
    ensures answered { (boots : List ℕ) (moves : List Move) → AreAnswered (machine_after (new_machine (new_servers 1 boots)) moves).packets }
    ensures applied { (boots : List ℕ) (moves : List Move) → AreWritesCalled (machine_after (new_machine (new_servers 1 boots)) moves).packets (journal_of (new_machine (new_servers 1 boots)) moves) }
{}
