//! What the journal of a bound run says.

ghost use Rattle.std.specs.Prelude.{ℕ, List};
ghost use Rattle.cluster_laws.specs.Machine.{Move};
ghost use Rattle.sound_runs.specs.BoundJournals.{BoundRunsAreSound};

use cluster_model::server_guards;
use covered_writes::covered_writes;

/// Of every run in which holders do what they may: where its copies are sound, its journal is sound, told entries too. So
/// each file is free for the first time with empty mirrors, each grant is of a new user while the file is free, each write
/// is noted in time and apart from those before it, each clean end is covered, each live list is fine, and no owner falls
/// (RFC 8435, sections 2.2 and 8).
pub fn sound_runs()
    ensures sound { (boots : List ℕ) (moves : List Move) → BoundRunsAreSound boots moves }
{
    covered_writes();
    server_guards();
}
