//! How many entries of each kind there are.

ghost use Rattle.std.specs.Prelude.{◌≡◌, ◌<◌, ◌++◌, List, [], Some, length, map, drop, slice_get};
ghost use Rattle.std.specs.List.{flat_map, zip};
ghost use Rattle.ff_xdr.specs.Calls.{Puts, Grows};
ghost use Rattle.journal_print.specs.Counts.{kinds, kind_word, count_of_kind, kind_line, kind_lines, counts};

use crate::lines::put_counted;
use cluster_model::Entry;
use ff_xdr::{NoMemory, Out};

/// So many kinds of entries there are.
const KINDS: usize = 26;

/// The first words of the lines of each kind.
const WORDS: [&[u8]; KINDS] = [
    b"packet",
    b"delivered",
    b"timedout",
    b"hold",
    b"pass",
    b"tick",
    b"granted",
    b"sent",
    b"rogue",
    b"turned",
    b"told",
    b"ended",
    b"left",
    b"swapped",
    b"fenced",
    b"free",
    b"applied",
    b"committed",
    b"owner",
    b"restarted",
    b"read",
    b"failed",
    b"later",
    b"answer",
    b"audit",
    b"rebooted",
];

/// The place of an entry's kind among them.
fn kind_of(entry: &Entry) -> usize
    ensures word { slice_get kinds result ≡ Some (kind_word entry.now) }
    ensures within { result < KINDS }
{
    match entry {
        Entry::Packet { .. } => 0,
        Entry::Delivered { .. } => 1,
        Entry::TimedOut { .. } => 2,
        Entry::Hold { .. } => 3,
        Entry::Pass { .. } => 4,
        Entry::Tick { .. } => 5,
        Entry::Granted { .. } => 6,
        Entry::Sent { .. } => 7,
        Entry::Rogue { .. } => 8,
        Entry::Turned { .. } => 9,
        Entry::Told { .. } => 10,
        Entry::Ended { .. } => 11,
        Entry::Left { .. } => 12,
        Entry::Swapped { .. } => 13,
        Entry::Fenced { .. } => 14,
        Entry::Free { .. } => 15,
        Entry::Applied { .. } => 16,
        Entry::Committed { .. } => 17,
        Entry::Owner { .. } => 18,
        Entry::Restarted { .. } => 19,
        Entry::ReadAnswer { .. } => 20,
        Entry::Failed { .. } => 21,
        Entry::Later { .. } => 22,
        Entry::Answer { .. } => 23,
        Entry::Audit { .. } => 24,
        Entry::Rebooted { .. } => 25,
    }
}

/// How many entries there are of each kind.
fn count_kinds(entries: &[Entry]) -> [u64; KINDS]
    ensures { result ≡ map (count_of_kind entries.now) kinds }
{
    let mut counts = [0; KINDS];
    for entry in entries {
        counts[kind_of(entry)] += 1;
    }
    counts
}

/// Appends the line of a kind of which there are so many.
fn put_kind(word: &[u8], count: u64, out: &mut Out) -> Result<(), NoMemory>
    ensures { Grows out.old result out.new (kind_line word.now count) }
{
    if count == 0 {
        return Ok(());
    }
    put_counted(word, count, out)
}

/// Appends the lines of kinds with these words, of which there are so many.
fn put_kinds(words: &[&[u8]], counts: &[u64], out: &mut Out) -> Result<(), NoMemory>
    ensures { Grows out.old result out.new (kind_lines (map (λ word. word.now) words.now) counts.now) }
{
    for (word, count) in words.iter().zip(counts) {
        put_kind(word, *count, out)?;
    }
    Ok(())
}

/// Appends the lines of all kinds of entries.
fn put_all_kinds(entries: &[Entry], out: &mut Out) -> Result<(), NoMemory>
    ensures { Grows out.old result out.new (counts entries.now) }
{
    put_kinds(&WORDS, &count_kinds(entries), out)
}

/// Appends how many entries of each kind there are: a line for each kind that came, in the journal's
/// order, of the first word of its lines and the number. At an error all is as before.
pub fn put_counts(entries: &[Entry], out: &mut Out) -> Result<(), NoMemory>
    ensures { Puts out.old result out.new (counts entries.now) }
{
    let mark = out.len();
    if put_all_kinds(entries, out).is_err() {
        out.truncate(mark);
        return Err(NoMemory);
    }
    Ok(())
}
