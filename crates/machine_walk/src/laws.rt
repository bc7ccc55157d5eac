//! Whose the writes are that data servers apply.

ghost use Rattle.std.specs.Prelude.{ℕ, List};
ghost use Rattle.cluster_laws.specs.Machine.{Move};
ghost use Rattle.machine_walk.specs.Owners.{AppliesByOwners, OfBoundRuns};

use cluster_model::server_guards;

/// Of every run in which all holders are bound: a write is applied under the uid that its mirror belongs to, and it is one
/// that a user took or sent astray after it was granted a file, or one under a uid that nobody is ever granted (RFC 8435,
/// section 2.2).
pub fn owners_law()
    ensures { (boots : List ℕ) (moves : List Move) → OfBoundRuns AppliesByOwners boots moves }
{
    server_guards();
}
