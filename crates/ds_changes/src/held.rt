//! Ranges of a file's bytes in the log: they go from the file into the body.

ghost use Rattle.std.specs.Prelude.{◌≡◌, ◌+◌, ◌<◌, ◌^◌, ◌++◌, length, map};
ghost use Rattle.std.specs.List.{AllByRecursion};
ghost use Rattle.ff_xdr.specs.Form.{word, long, spelling};
ghost use Rattle.ff_xdr.specs.Calls.{Grows};
ghost use Rattle.ds_log.specs.Bodies.{HoldsBytes, range_form, range_value, body_form, body_value, tick_form, tick_value};
ghost use Rattle.ds_changes.specs.HeldRanges.{plain_held, ranges_text};
ghost use Rattle.ds_changes.specs.Logging.{own_of, IsRange};

use cluster_model::Tick;
use data_file::FilePart;
use ds_log::Range;
use ff_xdr::{NoMemory, Out, Wire};

/// The number of a body that says that bytes became stable (`LogBody::Bytes`).
const HOLDS_BYTES: u32 = 4;

/// Bytes of a file that become stable, spelled as `Range` of `ds_log` is.
#[derive(Drop)]
pub struct HeldRange<'f> {
    /// The place of the first byte, counted from the start of the file.
    pub at: u64,
    pub part: FilePart<'f>,
}

/// Appends a range's spelling. At an error a part of it may stand in `out`.
fn put_range(range: &HeldRange<'_>, out: &mut Out) -> Result<(), NoMemory>
    ensures { Grows out.old result out.new (spelling range_form (range_value (plain_held range.now))) }
{
    out.number64(range.at)?;
    range.part.put_opaque(out)
}

/// Appends ranges, one behind the other. At an error a part of them may stand in `out`.
fn put_ranges(ranges: &[HeldRange<'_>], out: &mut Out) -> Result<(), NoMemory>
    ensures { Grows out.old result out.new (ranges_text (map plain_held ranges.now)) }
{
    for range in ranges {
        put_range(range, out)?;
    }
    Ok(())
}

/// How many ranges a write's own are.
fn own_count(own: Option<Range<'_>>) -> usize
    ensures { result ≡ length (own_of own.entry) }
{
    match own {
        None => 0,
        Some(_) => 1,
    }
}

/// Appends a write's own range, where there is one. At an error a part of it may stand in `out`.
fn put_own(own: Option<Range<'_>>, out: &mut Out) -> Result<(), NoMemory>
    requires { AllByRecursion IsRange (own_of own) }
    ensures { Grows out.old result out.new (ranges_text (own_of own.entry)) }
{
    match own {
        None => Ok(()),
        Some(range) => range.put(out),
    }
}

/// Appends what stands in the body before its ranges. At an error a part of it may stand in `out`.
fn put_head(
    fileid: u64,
    mtime: Tick,
    ctime: Tick,
    count: u32,
    out: &mut Out,
) -> Result<(), NoMemory>
    ensures { Grows out.old result out.new (word 4 ++ (long fileid ++ (spelling tick_form (tick_value mtime) ++ (spelling tick_form (tick_value ctime) ++ word count)))) }
{
    let mtime = (mtime.boot, mtime.count);
    let ctime = (ctime.boot, ctime.count);
    (HOLDS_BYTES, fileid, (mtime, ctime, count)).put(out)
}

/// Appends the body that says that bytes of a file became stable: ranges of the file, and behind them a
/// write's own. At an error a part of it may stand in `out`.
pub fn put_held(
    fileid: u64,
    mtime: Tick,
    ctime: Tick,
    ranges: &[HeldRange<'_>],
    own: Option<Range<'_>>,
    out: &mut Out,
) -> Result<(), NoMemory>
    requires count { length ranges.now + length (own_of own) < 2 ^ 32 }
    requires own { AllByRecursion IsRange (own_of own) }
    ensures { Grows out.old result out.new (spelling body_form (body_value (HoldsBytes fileid mtime ctime (map plain_held ranges.now ++ own_of own.entry)))) }
{
    let count = ranges.len() + own_count(own);
    put_head(fileid, mtime, ctime, count as u32, out)?;
    put_ranges(ranges, out)?;
    put_own(own, out)
}
