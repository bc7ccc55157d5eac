//! Journals whose entries are each sound behind those before them.
#![tactic(auto)]

ghost use Rattle.std.specs.Prelude.{List};
ghost use Rattle.cluster_model.specs.declared.ids.FileId.{FileId};
ghost use Rattle.cluster_model.specs.declared.entry.Entry.{Entry as JournalEntry};
ghost use Rattle.cluster_laws.specs.WorkedRuns.{two_periods_journal, late_write_journal, own_write_journal, strays_journal, reported_journal, resilver_journal};
ghost use Rattle.cluster_laws.specs.CopyRuns.{copy_run_journal, source_fails_journal, target_fails_journal};
ghost use Rattle.cluster_laws.specs.BadJournals.{mirrors_differ, told_and_lost, untaken_journal, told_by_a_repeat_journal};
ghost use Rattle.sound_journals.specs.Sound.{SoundAgrees};
ghost use Rattle.sound_journals.specs.SoundRuns.{IsSoundJournal, IsUnsound, one_period_journal};

use cluster_laws::refused_journals;

/// In a journal whose entries are each sound behind those before them, told ones too, a file agrees always: it is empty at
/// first, takes the steps of the flat file, and all its live mirrors have its bytes whenever it is free. A journal of one
/// period with a clean end is such a one.
pub fn sound_journals()
    ensures agree { (f : FileId) (journal : List JournalEntry) → SoundAgrees f journal }
    ensures one_period { IsSoundJournal one_period_journal }
{}

/// Journals of worked runs are sound: with two periods that end clean, a write that comes in the middle of a fence, a write
/// through the metadata server, a client that strays, a mirror that is reported and is written to behind its fence, a mirror
/// that is added, a dirty end with a copy and its swap, a source that fails and a target that fails.
pub fn worked_journals()
    ensures two_periods { IsSoundJournal two_periods_journal }
    ensures late_write { IsSoundJournal late_write_journal }
    ensures own_write { IsSoundJournal own_write_journal }
    ensures strays { IsSoundJournal strays_journal }
    ensures reported { IsSoundJournal reported_journal }
    ensures resilver { IsSoundJournal resilver_journal }
    ensures copied { IsSoundJournal copy_run_journal }
    ensures source_fails { IsSoundJournal source_fails_journal }
    ensures target_fails { IsSoundJournal target_fails_journal }
{}

/// Journals in which a file does not agree are not sound: mirrors that differ when it is free, a told write that was lost,
/// a byte that was never taken, and a write that is told by a COMMIT before it.
pub fn unsound_journals()
    ensures mirrors_differ { IsUnsound mirrors_differ }
    ensures told_and_lost { IsUnsound told_and_lost }
    ensures untaken { IsUnsound untaken_journal }
    ensures told_by_a_repeat { IsUnsound told_by_a_repeat_journal }
{
    refused_journals();
}
