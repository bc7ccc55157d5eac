//! The journal of a world, within its limits.

ghost use Rattle.std.specs.Prelude.{◌≡◌, ◌+◌, ◌≤◌, ◌<◌, ◌^◌, [], length, true, OnSome};
ghost use Rattle.std.specs.List.{AllByRecursion};
ghost use Rattle.ff_xdr.specs.Laws.{IsBytes};
ghost use Rattle.cluster_model.specs.declared.ids.MirrorId.{MirrorId};
ghost use Rattle.cluster_model.specs.Print.{hex_len, hex_of};
ghost use Rattle.world_journal.specs.Journal.{AddsEntries, IsEntryInRange, IsJournalInRange, is_within, within, hex_within, max_entries, max_hex};

use crate::fault::WorldFault;
use cluster_model::{Entry, MirrorId, UserAnswer};
use std::alloc::Global;
use std::marker::Model;

/// The most entries of a journal.
pub const MAX_ENTRIES: u64 = 400_000;

/// The most bytes that stand in a journal as hexadecimal: 256 MiB.
pub const MAX_HEX: u64 = 268_435_456;

/// The entries of what happened, and how many bytes stand in them as hexadecimal.
#[derive(Drop)]
pub struct Journal {
    entries: Vec<Entry>,
    hex: u64,
}

impl Model for Journal {
    ghost use Rattle.std.specs.Prelude.{◌≡◌, List};
    ghost use Rattle.cluster_model.specs.declared.entry.Entry.{Entry};
    ghost use Rattle.cluster_model.specs.Print.{hex_of};
    ghost use Rattle.world_journal.specs.Journal.{IsBounded, IsJournalInRange};

    ghost Value = { List Entry };

    ghost view = { λ j. j.entries.items };

    ghost invariant = { λ j. (j.hex ≡ hex_of j.entries.items) × IsBounded j.entries.items × IsJournalInRange j.entries.items };
}

/// The sum, where it is within the limit.
fn add_within(limit: u64, sum: u64, more: usize) -> Option<u64>
    requires { sum ≤ limit }
    ensures { result ≡ within limit (sum + more) }
{
    let more = more as u64;
    if more <= limit - sum {
        Some(sum + more)
    } else {
        None
    }
}

/// How many bytes there are.
fn len_of(bytes: &[u8]) -> usize
    ensures size { result ≡ length bytes.now }
    ensures range { IsBytes bytes.now }
{
    bytes.len()
}

/// Says of a number that it has eight bytes.
fn wide(number: u64) -> u64
    ensures { result ≡ number }
{
    number
}

/// Says of fileids that they have eight bytes.
fn are_fileids(ids: &[MirrorId])
    ensures { AllByRecursion (λ (m : MirrorId). m.fileid < 2 ^ 64) ids.now }
{
    for id in ids {
        wide(id.fileid);
    }
}

/// How many bytes stand as hexadecimal in the line of an entry.
fn hex_bytes(entry: &Entry) -> usize
    ensures size { result ≡ hex_len entry.now }
    ensures range { IsEntryInRange entry.now }
{
    match entry {
        Entry::Packet { bytes, .. }
        | Entry::Sent { bytes, .. }
        | Entry::Rogue { bytes, .. }
        | Entry::Told { bytes, .. }
        | Entry::Applied { bytes, .. }
        | Entry::ReadAnswer { bytes, .. }
        | Entry::Audit { bytes, .. }
        | Entry::Answer {
            answer: UserAnswer::Bytes { bytes, .. },
            ..
        } => len_of(bytes.bytes()),
        Entry::Free { live, .. } => {
            are_fileids(live.as_slice());
            0
        }
        Entry::Swapped { new, .. } => {
            wide(new.fileid);
            0
        }
        _ => 0,
    }
}

/// How many bytes stand as hexadecimal with these entries, where the limit lets them in.
fn add_hex(hex: u64, entries: &[Entry]) -> Option<u64>
    requires { hex ≤ max_hex }
    ensures sum { result ≡ within max_hex (hex + hex_of entries.now) }
    ensures range { OnSome result (IsJournalInRange entries.now) }
{
    let mut sum = hex;
    for entry in entries {
        sum = add_within(MAX_HEX, sum, hex_bytes(entry))?;
    }
    Some(sum)
}

/// How many bytes stand as hexadecimal in a journal with these entries, where the limits let them in.
pub fn tally(count: u64, hex: u64, entries: &[Entry]) -> Option<u64>
    requires count { count ≤ max_entries }
    requires hex { hex ≤ max_hex }
    ensures sum { result ≡ hex_within count hex entries.now }
    ensures range { OnSome result (IsJournalInRange entries.now) }
{
    add_within(MAX_ENTRIES, count, entries.len())?;
    add_hex(hex, entries)
}

impl Journal {
    /// No entries; takes no memory.
    pub fn new(alloc: Global) -> Journal
        ensures { result ≡ [] }
    {
        Journal {
            entries: Vec::new(alloc),
            hex: 0,
        }
    }

    /// How many entries there are.
    pub fn count(&self) -> u64
        ensures { result ≡ length self.now }
    {
        self.entries.len() as u64
    }

    /// The entries, in order.
    pub fn entries(&self) -> &[Entry]
        ensures are { result.now ≡ self.now }
        ensures range { IsJournalInRange self.now }
    {
        self.entries.as_slice()
    }

    /// Adds entries, where the limits let them in. At an error nothing has changed.
    pub fn add(&mut self, mut added: Vec<Entry>) -> Result<(), WorldFault>
        ensures { AddsEntries self.old added.items result self.new }
    {
        let count = self.count();
        let Some(hex) = tally(count, self.hex, &added) else {
            return Err(WorldFault::Limit { entries: count });
        };
        if self.entries.append(&mut added).is_err() {
            return Err(WorldFault::NoMemory);
        }
        self.hex = hex;
        Ok(())
    }
}
