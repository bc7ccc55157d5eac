//! A journal's text to a buffer.

ghost use Rattle.std.specs.Prelude.{◌≡◌, ◌++◌, drop};
ghost use Rattle.cluster_model.specs.Print.{print};
ghost use Rattle.journal_print.specs.Brief.{brief};
ghost use Rattle.line_runs.specs.Writing.{PrintsText};
ghost use Rattle.ff_replay.specs.Script.{trace_of, closing_of};

use cluster_model::Entry;
use ff_xdr::{NoMemory, Out};
use journal_print::{Mode, put_brief, put_counts, put_entry};

/// Appends the whole text of the entries. At an error `out` has a beginning of it.
fn print_whole(entries: &[Entry], out: &mut Out) -> Result<(), NoMemory>
    ensures { PrintsText out.old (print entries.now) result out.new }
{
    for entry in entries {
        put_entry(entry, out)?;
    }
    Ok(())
}

/// Appends the brief text of the entries. At an error `out` has a beginning of it.
fn print_brief(entries: &[Entry], out: &mut Out) -> Result<(), NoMemory>
    ensures { PrintsText out.old (brief entries.now) result out.new }
{
    for entry in entries {
        put_brief(entry, out)?;
    }
    Ok(())
}

/// Appends the text of the entries from this place on. At an error `out` has a beginning of it.
pub fn print_from(mode: Mode, journal: &[Entry], from: usize, out: &mut Out) -> Result<(), NoMemory>
    ensures { PrintsText out.old (trace_of mode (drop from journal.now)) result out.new }
{
    let Some(entries) = journal.get(from..) else {
        return Ok(());
    };
    match mode {
        Mode::Full => print_whole(entries, out),
        Mode::Brief => print_brief(entries, out),
        Mode::Count => Ok(()),
    }
}

/// Appends what stands behind the trace of this journal: for `Mode::Count` how many entries of each kind
/// there are. At an error `out` is as before.
pub fn print_closing(mode: Mode, journal: &[Entry], out: &mut Out) -> Result<(), NoMemory>
    ensures { PrintsText out.old (closing_of mode journal.now) result out.new }
{
    match mode {
        Mode::Full | Mode::Brief => Ok(()),
        Mode::Count => put_counts(journal, out),
    }
}
