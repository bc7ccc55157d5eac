//! Sets of places of a file.

ghost use Rattle.std.specs.Prelude.{◌≡◌, ◌≤◌, ◌<◌, ◌+◌, [], length, OnOk, OnErr, IfOk, true, false};
ghost use Rattle.mirror_writer.specs.Extents.{is_place, AreApart, AddsPlaces, SharesPlace, AreGaps, max_place};
ghost use Rattle.mirror_writer.specs.Runs.{LastUpTo, FirstFrom, BeginsAt, EndsAt, RunsOn, PushesGap};

use ff_xdr::NoMemory;
use std::alloc::Global;
use std::collections::BTreeMap;
use std::marker::Model;

/// A set of places of a file, below 67,108,864. Runs that touch are joined, so that clauses see one list of runs.
#[derive(Debug, Drop)]
pub struct Extents {
    alloc: Global,
    // from the first place of a run to the place behind its last
    runs: BTreeMap<u64, u64>,
}

impl Model for Extents {
    ghost use Rattle.std.specs.Prelude.{ℕ, List};

    ghost Value = { List (ℕ × ℕ) };

    ghost use Rattle.mirror_writer.specs.Extents.{AreApart, EndBy, max_place};

    ghost view = { λ m. m.runs.entries };

    ghost invariant = { λ m. AreApart m.runs.entries × EndBy max_place m.runs.entries };
}

impl Extents {
    /// No places. Takes no memory.
    pub fn new(alloc: Global) -> Extents
        ensures { result ≡ [] }
    {
        Extents {
            alloc,
            runs: BTreeMap::new(alloc),
        }
    }

    /// Adds the `count` places from `at` on, none of which is in the set; 0 adds nothing. At an error nothing has changed.
    pub fn insert(&mut self, at: u64, count: u64) -> Result<(), NoMemory>
        requires fresh { SharesPlace self.old at count false }
        requires within { at + count ≤ max_place }
        ensures ok { OnOk result (AddsPlaces self.old at count self.new) }
        ensures apart { AreApart self.new }
        ensures err { OnErr result (self.new ≡ self.old) }
    {
        let end = at + count;
        let upto = ends(&self.runs, end);
        if count == 0 {
            return Ok(());
        }
        let first = self.begins(at);
        self.runs.insert(first, upto)?;
        self.runs.remove(&end);
        Ok(())
    }

    /// Whether one of the `count` places from `at` on is in the set. Costs the logarithm of the number of runs.
    pub fn overlaps(&self, at: u64, count: u64) -> bool
        ensures { SharesPlace self.now at count result }
    {
        if count == 0 {
            return false;
        }
        // no place of the set is behind the largest number
        let last = at.saturating_add(count - 1);
        match last_up_to(&self.runs, last) {
            None => false,
            Some((_, end)) => at < end,
        }
    }

    /// The places of the `count` from `at` on that are not in the set: for each gap its first place and how many it has, in
    /// order. Costs what it gives.
    pub fn gaps(&self, at: u64, count: u64) -> Result<Vec<(u64, u64)>, NoMemory>
        ensures { IfOk result (λ gaps. AreGaps self.now at count gaps.items) }
    {
        let mut gaps = Vec::new(self.alloc);
        let mut from = at;
        let mut left = count;
        while left > 0 {
            let taken = self.taken_from(from, left);
            let free = self.free_from(from + taken, left - taken);
            push_gap(from + taken, free, &mut gaps)?;
            left -= taken + free;
            if left > 0 {
                from += taken + free;
            }
        }
        Ok(gaps)
    }

    /// How many longest runs of places the set has. Takes no memory.
    pub fn parts(&self) -> u64
        ensures exact { result ≡ length self.now }
        ensures longest { AreApart self.now }
    {
        self.runs.len() as u64
    }

    /// Where a run begins that ends at this place, which is in none; where none does, the place itself.
    fn begins(&self, place: u64) -> u64
        requires { is_place self.now place ≡ false }
        ensures { BeginsAt self.now place result }
    {
        match last_up_to(&self.runs, place) {
            Some((first, end)) if end == place => first,
            _ => place,
        }
    }

    /// How many places from this one on are in the set, of at most `left`.
    fn taken_from(&self, place: u64, left: u64) -> u64
        ensures on { RunsOn self.now true place left result }
        ensures fits { 0 < result → place + result ≤ max_place }
    {
        match last_up_to(&self.runs, place) {
            Some((_, end)) if place < end => left.min(end - place),
            _ => 0,
        }
    }

    /// How many places from this one on are not in the set, of at most `left`.
    fn free_from(&self, place: u64, left: u64) -> u64
        requires { 0 < left → is_place self.now place ≡ false }
        ensures on { RunsOn self.now false place left result }
        ensures fits { result < left → place + result < max_place }
    {
        match first_from(&self.runs, place) {
            None => left,
            Some(first) => left.min(first - place),
        }
    }
}

/// A gap of some places is one more.
fn push_gap(first: u64, count: u64, gaps: &mut Vec<(u64, u64)>) -> Result<(), NoMemory>
    ensures { OnOk result (PushesGap gaps.old.items first count gaps.new.items) }
{
    if count > 0 {
        gaps.push((first, count))?;
    }
    Ok(())
}

/// Where the run ends that begins at this place; where none does, the place itself.
fn ends(runs: &BTreeMap<u64, u64>, place: u64) -> u64
    ensures { EndsAt runs.now.entries place result }
{
    match runs.get(&place) {
        None => place,
        Some(end) => *end,
    }
}

/// The last run that begins at this place or before: its first place and the place behind its last.
fn last_up_to(runs: &BTreeMap<u64, u64>, place: u64) -> Option<(u64, u64)>
    ensures { LastUpTo runs.now.entries place result }
{
    match runs.range(..=place).next_back() {
        None => None,
        Some((first, end)) => Some((*first, *end)),
    }
}

/// Where the first run begins that begins at this place or behind it.
fn first_from(runs: &BTreeMap<u64, u64>, place: u64) -> Option<u64>
    ensures { FirstFrom runs.now.entries place result }
{
    match runs.range(place..).next() {
        None => None,
        Some((first, _)) => Some(*first),
    }
}
