//! What copies do, and which writes reach a live mirror.
#![tactic(auto)]

ghost use Rattle.std.specs.Prelude.{ℕ, List};
ghost use Rattle.cluster_laws.specs.Machine.{Move};
ghost use Rattle.machine_walk.specs.Owners.{AppliesByOwners, OfBoundRuns};
ghost use Rattle.copied_bytes.specs.CopiedBytes.{SwapsFromStable, SwapsInAlike, CopiesLeaveAsShown, FreesAlike};

use cluster_model::server_guards;
use machine_walk::owners_law;

/// Of every run in which all holders are bound: a write is applied under the uid that its mirror belongs to, and it is one
/// that a user took or sent astray after it was granted a file, or one under a uid that nobody is ever granted.
/// At each swap of a copy the first live mirror and the new one have the file's bytes, all stable. A write under a uid that
/// nobody is ever granted changes nothing of what a live mirror shows. Behind a dirty end a file is free again with the same
/// bytes at each live mirror, all stable.
pub fn copied_bytes()
    ensures applied { (boots : List ℕ) (moves : List Move) → OfBoundRuns AppliesByOwners boots moves }
    ensures sources { (boots : List ℕ) (moves : List Move) → OfBoundRuns SwapsFromStable boots moves }
    ensures swapped { (boots : List ℕ) (moves : List Move) → OfBoundRuns SwapsInAlike boots moves }
    ensures late { (boots : List ℕ) (moves : List Move) → OfBoundRuns CopiesLeaveAsShown boots moves }
    ensures freed { (boots : List ℕ) (moves : List Move) → OfBoundRuns FreesAlike boots moves }
{
    owners_law();
    server_guards();
}
