//! Bytes of a file that become stable.

ghost use Rattle.std.specs.Prelude.{◌≡◌, ◌≢◌, ◌+◌, ◌<◌, ◌≤◌, ◌^◌, ◌⊎◌, [], length, map, option_map, vec_items, IfOk, true};
ghost use Rattle.std.specs.Bool.{OnTrue, OnFalse};
ghost use Rattle.cluster_model.specs.Ticks.{next_tick};
ghost use Rattle.cluster_model.specs.File.{shown, times_after, Writes};
ghost use Rattle.cluster_model.specs.Server.{max_file, max_ticks};
ghost use Rattle.ds_changes.specs.Changes as changes;
ghost use Rattle.ds_changes.specs.Logging.{LogsBy, own_of, IsOwn, TimesFit};

use crate::body::bytes_held;
use crate::ranges::pending_ranges;
use cluster_model::{Tick, Times};
use data_file::DataFile;
use ds_log::Range;
use ff_xdr::NoMemory;
use std::alloc::Global;

/// The times after a write, behind the last tick that was given: one of no bytes changes nothing.
fn times_written(times: Times, clock: Tick, bytes: &[u8]) -> Times
    requires { 0 < length bytes.now → clock.count < max_ticks }
    ensures { result ≡ times_after times (next_tick clock) bytes.now }
{
    if bytes.is_empty() {
        return times;
    }
    let tick = clock.next();
    Times {
        mtime: tick,
        ctime: tick,
        ..times
    }
}

/// A write's own range, where it has bytes.
fn own_range<'f>(at: u64, bytes: &'f [u8]) -> Option<Range<'f>>
    ensures { own_of result ≡ changes.own_range at bytes.entry.now }
{
    if bytes.is_empty() {
        return None;
    }
    Some(Range { at, bytes })
}

/// No write is pending, and there is no range beside.
fn is_settled(file: &DataFile, own: Option<Range<'_>>) -> bool
    ensures yes { OnTrue result ((file.now.content.pending ≡ []) × (own_of own.entry ≡ [])) }
    ensures no { OnFalse result ((file.now.content.pending ≢ []) ⊎ (own_of own.entry ≢ [])) }
{
    match own {
        Some(_) => false,
        None => file.pending_count() == 0,
    }
}

/// The body of what becomes stable of the file at an index, with these times and a write's own range
/// behind what was pending; none where nothing was pending and there is no such range.
fn stable_body<'f>(
    alloc: Global,
    index: usize,
    file: &'f DataFile,
    times: Times,
    own: Option<Range<'f>>,
) -> Result<Option<Vec<u8>>, NoMemory>
    requires index { index + 2 < 2 ^ 64 }
    requires size { length (shown file.now) ≤ max_file }
    requires own { IsOwn (own_of own) }
    requires times { TimesFit times }
    ensures { IfOk result (λ bytes. LogsBy (changes.StableBody index file.now times (own_of own.entry)) (option_map vec_items bytes)) }
{
    if is_settled(file, own) {
        return Ok(None);
    }
    let ranges = pending_ranges(alloc, file)?;
    let bytes = bytes_held(
        alloc,
        index as u64 + 2,
        times.mtime,
        times.ctime,
        &ranges,
        own,
    )?;
    Ok(Some(bytes))
}

/// The body of a COMMIT of the file at an index, where something is pending.
pub fn committed(alloc: Global, index: usize, file: &DataFile) -> Result<Option<Vec<u8>>, NoMemory>
    requires index { index + 2 < 2 ^ 64 }
    requires size { length (shown file.now) ≤ max_file }
    ensures { IfOk result (λ bytes. LogsBy (changes.StableBody index file.now file.now.times []) (option_map vec_items bytes)) }
{
    stable_body(alloc, index, file, file.times(), None)
}

/// The body of a WRITE to the file at an index that is stable before its answer, where it has bytes or
/// something is pending.
pub fn written<'f>(
    alloc: Global,
    clock: Tick,
    index: usize,
    file: &'f DataFile,
    at: u64,
    bytes: &'f [u8],
) -> Result<Option<Vec<u8>>, NoMemory>
    requires index { index + 2 < 2 ^ 64 }
    requires size { length (shown file.now) ≤ max_file }
    requires short { 0 < length bytes.now → at + length bytes.now ≤ max_file }
    requires tick { 0 < length bytes.now → clock.count < max_ticks }
    ensures { IfOk result (λ body. LogsBy (changes.OpBody clock index file.now (Writes at true bytes.entry.now)) (option_map vec_items body)) }
{
    let times = times_written(file.times(), clock, bytes);
    stable_body(alloc, index, file, times, own_range(at, bytes))
}
