//! What is set and written of a file that is there.

ghost use Rattle.std.specs.Prelude.{◌≡◌, ◌+◌, ◌-◌, ◌≤◌, IfOk, OnOk, IsTrue, length};
ghost use Rattle.std.specs.List.{list_all};
ghost use Rattle.cluster_model.specs.declared.limits.TheConstants.{MAX_TOTAL};
ghost use Rattle.cluster_model.specs.File.{shown};
ghost use Rattle.ds_procedures.specs.ServerBases.{server_of};
ghost use Rattle.ds_log.specs.Bodies.{SetsAttributes, HoldsBytes};
ghost use Rattle.ds_log.specs.PlainRanges.{plain_range};
ghost use Rattle.ds_log.specs.PlainBodies.{plain_ranges};
ghost use Rattle.ds_log.specs.Durable.{applied, holding, ends_in_file};
ghost use Rattle.ds_log.specs.Lasting.{IsLasting, IsLastingFile};
ghost use Rattle.ds_log.specs.Applies.{CameTo, Holds, IsIndexOf, end_with, end_by, has_room};

use crate::range::Range;
use cluster_model::{Changes, MAX_FILE, MAX_TOTAL, NewTime, Tick, Times};
use data_file::DataFile;
use ds_procedures::{MODE_BITS, ServerBase};
use ff_xdr::{Items, NoMemory};

/// The fileid of the first file, since the root has 1.
pub const FIRST: u64 = 2;

/// The index of the file with a fileid, where there is one.
fn place_of(files: &[DataFile], fileid: u64) -> Option<usize>
    ensures { IsIndexOf (length files.now) fileid result }
{
    if fileid < FIRST || fileid - FIRST >= files.len() as u64 {
        return None;
    }
    Some((fileid - FIRST) as usize)
}

/// Sets attributes of the file with a fileid, where there is one and they may be set.
pub fn set_attributes(
    head: &ServerBase,
    files: &mut [DataFile],
    fileid: u64,
    owner: u32,
    group: u32,
    mode: u32,
    times: &Times,
) -> bool
    requires { IsLasting head.now files.old }
    ensures came { CameTo (applied (server_of head.now files.old) (SetsAttributes fileid owner group mode times.now)) (server_of head.now files.old) result (server_of head.now files.new) }
    ensures keeps { IsLasting head.now files.new }
{
    let Some(index) = place_of(files, fileid) else {
        return false;
    };
    if mode >= MODE_BITS || times.ctime.boot > head.clock.boot {
        return false;
    }
    let changes = Changes {
        owner: Some(owner),
        group: Some(group),
        mode: Some(mode),
        atime: NewTime::At(times.atime),
        mtime: NewTime::At(times.mtime),
    };
    files[index].set(times.ctime, &changes);
    true
}

/// Where a file of so many bytes ends with a range over it, where the range ends within what a file may have.
fn end_with(end: u64, range: &Range<'_>) -> Option<u64>
    ensures { result ≡ end_with end (plain_range range.now) }
{
    let last = range.at.checked_add(range.bytes.len() as u64)?;
    if last > MAX_FILE {
        return None;
    }
    if range.bytes.is_empty() {
        return Some(end);
    }
    Some(end.max(last))
}

/// The same of ranges, each behind the one before.
fn end_by(size: u64, ranges: &Items<'_, Range<'_>>) -> Option<u64>
    ensures { result ≡ end_by size (plain_ranges ranges.now.place) }
{
    let mut end = size;
    for range in ranges.items() {
        end = end_with(end, &range)?;
    }
    Some(end)
}

/// There is room for the ranges in a file of the server, and their tick is of a boot that has begun.
fn has_room(head: &ServerBase, file: &DataFile, ctime: Tick, ranges: &Items<'_, Range<'_>>) -> bool
    requires lasting { IsLastingFile head.now.clock.boot file.now }
    requires part { length (shown file.now) ≤ head.now.total }
    requires bounded { head.now.total ≤ MAX_TOTAL }
    ensures { result ≡ has_room head.now file.now ctime (plain_ranges ranges.now.place) }
{
    let before = file.size();
    let Some(end) = end_by(before, ranges) else {
        return false;
    };
    // without what the file has now, so that no sum is too large
    let others = head.total - before;
    end <= MAX_TOTAL - others && ctime.boot <= head.clock.boot
}

/// Writes the ranges into a file, each behind the one before. At an error the first of them may be written.
fn write_ranges(
    file: &mut DataFile,
    tick: Tick,
    ranges: &Items<'_, Range<'_>>,
) -> Result<(), NoMemory>
    requires { IsTrue (list_all ends_in_file (plain_ranges ranges.now.place)) }
    ensures { Holds file.old tick (plain_ranges ranges.now.place) result file.new }
{
    for range in ranges.items() {
        file.write(tick, range.at, true, range.bytes)?;
    }
    Ok(())
}

/// Puts the ranges into a file that has room for them, and counts its bytes anew. At an error the first of them may be
/// there.
fn put_ranges(
    head: &mut ServerBase,
    file: &mut DataFile,
    mtime: Tick,
    ctime: Tick,
    ranges: &Items<'_, Range<'_>>,
) -> Result<(), NoMemory>
    requires lasting { IsLastingFile head.old.clock.boot file.old }
    requires part { length (shown file.old) ≤ head.old.total }
    requires room { IsTrue (has_room head.old file.old ctime (plain_ranges ranges.now.place)) }
    ensures counted { head.new ≡ record head.old { total = head.old.total - length (shown file.old) + length (shown file.new) } }
    ensures bounded { head.new.total ≤ MAX_TOTAL }
    ensures lasting { IsLastingFile head.old.clock.boot file.new }
    ensures put { OnOk result (file.new ≡ holding file.old mtime ctime (plain_ranges ranges.now.place)) }
{
    let before = file.size();
    let written = write_ranges(file, ctime, ranges);
    head.total = head.total - before + file.size();
    written?;
    let changes = Changes {
        owner: None,
        group: None,
        mode: None,
        atime: NewTime::Keep,
        mtime: NewTime::At(mtime),
    };
    file.set(ctime, &changes);
    Ok(())
}

/// Puts ranges of bytes into the file with a fileid, where there is one and it has room for them. At an error the first of
/// them may be there.
pub fn hold_bytes(
    head: &mut ServerBase,
    files: &mut [DataFile],
    fileid: u64,
    mtime: Tick,
    ctime: Tick,
    ranges: &Items<'_, Range<'_>>,
) -> Result<bool, NoMemory>
    requires { IsLasting head.old files.old }
    ensures came { IfOk result (λ fits. CameTo (applied (server_of head.old files.old) (HoldsBytes fileid mtime ctime (plain_ranges ranges.now.place))) (server_of head.old files.old) fits (server_of head.new files.new)) }
    ensures keeps { IsLasting head.new files.new }
{
    let Some(index) = place_of(files, fileid) else {
        return Ok(false);
    };
    let file = &mut files[index];
    if !has_room(head, file, ctime, ranges) {
        return Ok(false);
    }
    put_ranges(head, file, mtime, ctime, ranges)?;
    Ok(true)
}
