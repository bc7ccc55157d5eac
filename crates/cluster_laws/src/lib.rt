//! What holds of every run of the cluster's machine.
#![tactic(auto)]

ghost use Rattle.std.specs.Prelude.{ℕ, true, List, ◌≡◌, ◌∷◌, [], take, drop};
ghost use Rattle.cluster_model.specs.declared.ids.NodeId.TheVariants.{Client};
ghost use Rattle.cluster_model.specs.declared.layout_state.LayoutPhase.TheVariants.{Held};
ghost use Rattle.cluster_model.specs.declared.entry.Entry.{Entry as JournalEntry};
ghost use Rattle.cluster_laws.specs.Machine.{Move};
ghost use Rattle.cluster_laws.specs.FenceLaw.{FenceLaw};
ghost use Rattle.cluster_laws.specs.RunBounds.{StepsDrawFew, UidsEnd};
ghost use Rattle.cluster_laws.specs.GoingCopies.{CopiesGoOn};
ghost use Rattle.cluster_laws.specs.CallRanges.{CallsInRange, MirrorsInRange};
ghost use Rattle.cluster_laws.specs.Periods.{EachPeriodIsFenced, OwnersStay, TellsTheTruth};
ghost use Rattle.cluster_laws.specs.Telling.{SaysTheSame, MakesTelling};
ghost use Rattle.cluster_laws.specs.WorkedRuns.{run_journal, two_periods, two_periods_journal, restart_between, restart_between_journal, late_write, late_write_journal, repeat, repeat_journal, timeouts, timeouts_journal, out_of_sync, out_of_sync_journal, own_write, own_write_journal, resilver, resilver_journal, strays, strays_journal, reported, reported_journal, recalled, run_phases};
ghost use Rattle.cluster_laws.specs.CopyRuns.{copy_run, copy_run_journal, source_fails, source_fails_journal, target_fails, target_fails_journal};
ghost use Rattle.cluster_model.specs.Content.{Pending, Content};
ghost use Rattle.cluster_laws.specs.Holders.{AreBound, the_write};
ghost use Rattle.cluster_laws.specs.Keeping.{MirrorTurn, KeepsAlways, KeepsAll, IsMadeByTurns, HasHeld, HeldAgree, TakesCleanStep, HasSettled, TakesDirtyStep};
ghost use Rattle.cluster_model.specs.declared.ids.MirrorId.{MirrorId};
ghost use Rattle.cluster_laws.specs.BadJournals.{BreaksFences, BreaksPeriods, fence_of_nothing, fence_of_one_mirror, write_behind_the_fence, grant_without_a_fence, fence_without_mirrors, granted_again, BreaksAgreement, mirrors_differ, told_and_lost, untaken, untaken_journal, told_by_a_repeat, told_by_a_repeat_journal, IsLoose};

use cluster_model::server_guards;

/// The fence law (RFC 8435, section 2.2). In every run of the machine, with every loss, repeat, reordering, restart,
/// timeout and stray write: at each fence the live mirrors are those that the entry says, and belong to the fresh user;
/// and from then on no write under the fenced user is applied to a mirror that is live, whatever its place and its
/// bytes.
pub fn fence_law()
    ensures { (boots : List ℕ) (moves : List Move) → FenceLaw boots moves }
{
    server_guards();
}

/// What stands beside the fence law in every run. Each period is fenced: between its end and the file's next grant, or the
/// next time that it is free, its user is shut out at one live mirror at least; a user is granted once; and a grant is
/// of the user of the last fence, or of the CREATEs. Behind a fence each live mirror belongs to the fresh user or to a
/// later one. What the journal says of the bytes, the pending writes and the owner of each mirror is so at its server.
pub fn run_laws()
    ensures each_period_is_fenced { (boots : List ℕ) (moves : List Move) → EachPeriodIsFenced boots moves }
    ensures owners_stay { (boots : List ℕ) (moves : List Move) → OwnersStay boots moves }
    ensures tells_the_truth { (boots : List ℕ) (moves : List Move) → TellsTheTruth boots moves }
{
    server_guards();
}

/// What a run draws. A step of a file, whatever comes to it, draws one uid at most and the numbers of four names: no file
/// has more than four mirrors, with those that are being made or added. The uids of a run stay below their end.
pub fn run_bounds()
    ensures draws { (boots : List ℕ) (moves : List Move) → StepsDrawFew boots moves }
    ensures uids { (boots : List ℕ) (moves : List Move) → UidsEnd boots moves }
{}

/// In every run a copy that a file has under way has no outcome yet: a step that brings it one ends it. So no file waits for
/// a copy that has no call left. A copy has a target from the first, since a file wants no more mirrors than there are
/// data servers.
pub fn copies_go_on()
    ensures { (boots : List ℕ) (moves : List Move) → CopiesGoOn boots moves }
{}

/// The calls of a run fit their fields, where the numbers of its data servers do: each call that can go out has numbers in
/// their ranges, at most 65,536 bytes in a WRITE and at least one in a READ (`IsCallInRange`); and so have each file's uid
/// and the fileids of its live mirrors.
pub fn calls_in_range()
    ensures calls { (boots : List ℕ) (moves : List Move) → CallsInRange boots moves }
    ensures mirrors { (boots : List ℕ) (moves : List Move) → MirrorsInRange boots moves }
{
    server_guards();
}

/// What a journal says without the kinds of entries that no run of the machine makes (packets, deliveries, notes): of live
/// mirrors, bytes and owners the same as the whole; and the fence law, the law of periods, that owners stay, and
/// agreement hold of it just where they hold of the whole. A run's journal has no such entry.
pub fn telling_entries()
    ensures same { (journal : List JournalEntry) → SaysTheSame journal }
    ensures runs { (boots : List ℕ) (moves : List Move) → MakesTelling boots moves }
{
    server_guards();
}

/// What one mirror keeps of a period's writes, whatever of them is applied, committed and lost there, in any order. Each
/// byte is one from before or a written one, and a covered write stands, but for bytes that strayed. Where nothing
/// strayed and all that was taken is covered, the mirror has the bytes from before with all that was taken. In a journal
/// a mirror's bytes are what its entries make of them, so all mirrors that kept a period so have the same bytes. Such a
/// mirror takes the flat file's step of a clean end; and one with strays, that was fenced and committed, the step of a
/// dirty end. A mirror of each kind is met in a worked run.
pub fn mirror_laws()
    ensures keeps { (base : List ℕ) (sent rogue : List Pending) (c : Content) (turns : List MirrorTurn) → KeepsAlways base sent rogue c turns }
    ensures whole { (base : List ℕ) (sent : List Pending) (c : Content) (turns : List MirrorTurn) → KeepsAll base sent c turns }
    ensures by_turns { (before entries : List JournalEntry) (m : MirrorId) → IsMadeByTurns before entries m }
    ensures agree { (base : List ℕ) (sent : List Pending) (before entries : List JournalEntry) (mirrors : List MirrorId) → HeldAgree base sent before entries mirrors }
    ensures clean_step { (journal : List JournalEntry) (uid : ℕ) (base : List ℕ) (before entries : List JournalEntry) (m : MirrorId) → TakesCleanStep journal uid base before entries m }
    ensures dirty_step { (journal : List JournalEntry) (uid : ℕ) (base : List ℕ) (before entries : List JournalEntry) (m : MirrorId) → TakesDirtyStep journal uid base before entries m }
    ensures one_held { HasHeld [] (the_write 0 (65 ∷ []) ∷ []) (take 3 two_periods_journal) (take 5 (drop 3 two_periods_journal)) (record { server = 1; fileid = 2 }) }
    ensures one_settled { HasSettled strays_journal 65536 [] (take 2 strays_journal) (drop 2 strays_journal) (record { server = 1; fileid = 2 }) }
{}

/// Runs with their journals. Two periods that end clean; a lease that ends with a restart in the middle of its fence; a
/// write that comes between the acknowledgements of two mirrors: in each of these an old call comes once more at the
/// end. A call that is lost and sent again; three timeouts of one call; eight answers out of sync, and a tick; an own
/// write whose answer refreshes a ctime; one that fails at a mirror, and a mirror in its stead; a client that strays; a
/// mirror that is reported; a recall. A copy with its swap and second fence; a source that fails; a target that fails.
pub fn worked_runs()
    ensures two_periods { run_journal (1 ∷ []) two_periods ≡ two_periods_journal }
    ensures restart_between { run_journal (1 ∷ []) restart_between ≡ restart_between_journal }
    ensures late_write { run_journal (1 ∷ 1 ∷ []) late_write ≡ late_write_journal }
    ensures repeat { run_journal (1 ∷ []) repeat ≡ repeat_journal }
    ensures timeouts { run_journal (1 ∷ 1 ∷ []) timeouts ≡ timeouts_journal }
    ensures out_of_sync { run_journal (1 ∷ []) out_of_sync ≡ out_of_sync_journal }
    ensures own_write { run_journal (1 ∷ []) own_write ≡ own_write_journal }
    ensures resilver { run_journal (1 ∷ 1 ∷ []) resilver ≡ resilver_journal }
    ensures strays { run_journal (1 ∷ []) strays ≡ strays_journal }
    ensures reported { run_journal (1 ∷ 1 ∷ []) reported ≡ reported_journal }
    ensures recalled { run_phases (1 ∷ []) recalled ≡ Held (Client 1) true ∷ [] }
    ensures copied { run_journal (1 ∷ 1 ∷ []) copy_run ≡ copy_run_journal }
    ensures source_fails { run_journal (1 ∷ 1 ∷ []) source_fails ≡ source_fails_journal }
    ensures target_fails { run_journal (1 ∷ 1 ∷ []) target_fails ≡ target_fails_journal }
{}

/// Journals that break the fence law, such that break the law of periods, and such in which a file does not agree; the last
/// two are of runs in which a holder is not bound.
pub fn refused_journals()
    ensures fence_of_nothing { BreaksFences fence_of_nothing }
    ensures fence_of_one_mirror { BreaksFences fence_of_one_mirror }
    ensures write_behind_the_fence { BreaksFences write_behind_the_fence }
    ensures grant_without_a_fence { BreaksPeriods grant_without_a_fence }
    ensures fence_without_mirrors { BreaksPeriods fence_without_mirrors }
    ensures granted_again { BreaksPeriods granted_again }
    ensures mirrors_differ { BreaksAgreement mirrors_differ }
    ensures told_and_lost { BreaksAgreement told_and_lost }
    ensures untaken { IsLoose (1 ∷ []) untaken untaken_journal }
    ensures told_by_a_repeat { IsLoose (1 ∷ []) told_by_a_repeat told_by_a_repeat_journal }
{}

/// Worked runs in which all holders are bound as the agreement law asks: with clean ends, a mirror that is reported, own
/// writes, a client that strays, and copies.
pub fn bound_runs()
    ensures two_periods { AreBound (1 ∷ []) two_periods }
    ensures reported { AreBound (1 ∷ 1 ∷ []) reported }
    ensures own_write { AreBound (1 ∷ []) own_write }
    ensures resilver { AreBound (1 ∷ 1 ∷ []) resilver }
    ensures strays { AreBound (1 ∷ []) strays }
    ensures copied { AreBound (1 ∷ 1 ∷ []) copy_run }
{}
