//! Which file is next at the end of an event: those that have nothing to send are passed over.

ghost use Rattle.std.specs.Prelude.{◌≡◌, ◌≤◌, ◌<◌, ℕ, List, Option, Some, IfSome};
ghost use Rattle.served_files.specs.Quiet.{AreQuiet};
ghost use Rattle.mds_sends.specs.Kept.{FirstKept, NoneKept, IsAtMost};
ghost use Rattle.mds_sends.specs.Visits.{NoRecalls, NextFile};

use mds_state::State;

/// The number of the first file from this one on that is due, where it is below `end`; `end` where there is none. It costs the
/// logarithm of how many files are due.
fn next_due(state: &State, from: u32, end: u32) -> u32
    ensures within { result ≤ end }
    ensures behind { result < end → from ≤ result }
    ensures quiet { AreQuiet state.now.files from result }
{
    match state.files.next_due(from) {
        Some(file) => file.0.min(end),
        None => end,
    }
}

/// The number of the file whose recall is next, where it is this one or above and below `end`; `end` where it is not.
fn next_recalled(state: &State, from: u32, end: u32) -> u32
    ensures within { result ≤ end }
    ensures behind { result < end → from ≤ result }
    ensures none { NoRecalls state.now from result }
{
    match state.recalls.waiting_file() {
        Some(file) if from <= file.0 => file.0.min(end),
        _ => end,
    }
}

/// The number of the file that has kept a call next, where it is this one or above and below `end`; `end` where it is not.
fn next_kept(kept: Option<u32>, from: u32, end: u32) -> u32
    ensures within { result ≤ end }
    ensures behind { result < end → from ≤ result }
    ensures none { (list : List (Option (ℕ × ℕ))) → FirstKept list from kept → NoneKept list from result }
    ensures least { (n : ℕ) → kept ≡ Some n → from ≤ n → result ≤ n }
{
    match kept {
        Some(number) if from <= number => number.min(end),
        _ => end,
    }
}

/// The number of the next file from this one on and below `end` that may have a call to send; `kept` is the number of the first of
/// them that has kept one until a tick. It costs the logarithm of how many files are due, and what finding the next recall costs.
pub fn next_file(state: &State, kept: Option<u32>, from: u32, end: u32) -> Option<u32>
    requires { 1 ≤ from }
    ensures within { IfSome result (λ n. (from ≤ n) × (n < end)) }
    ensures next { (list : List (Option (ℕ × ℕ))) → FirstKept list from kept → NextFile list state.now from end result }
    ensures kept { IsAtMost from result kept }
{
    let due = next_due(state, from, end);
    let recalled = next_recalled(state, from, end);
    let others = due.min(recalled);
    let next = others.min(next_kept(kept, from, end));
    if next >= end {
        return None;
    }
    Some(next)
}
