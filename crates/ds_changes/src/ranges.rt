//! The bytes of pending writes, as they are shown.

ghost use Rattle.std.specs.Prelude.{◌≡◌, ◌+◌, ◌<◌, ◌≤◌, length, map, IfOk};
ghost use Rattle.std.specs.List.{AllByRecursion};
ghost use Rattle.cluster_model.specs.File.{shown};
ghost use Rattle.cluster_model.specs.Server.{max_file};
ghost use Rattle.ds_changes.specs.HeldRanges.{plain_held};
ghost use Rattle.ds_changes.specs.Joined.{AreJoined};
ghost use Rattle.ds_changes.specs.Spans.{IsSpan, range_at};

use crate::held::HeldRange;
use crate::join::join_spans;
use crate::span::{Span, pending_spans, sort_spans};
use data_file::DataFile;
use ff_xdr::NoMemory;
use std::alloc::Global;

/// The bytes that a file shows at a span.
fn range_at(file: &DataFile, span: Span) -> HeldRange<'_>
    requires { IsSpan span }
    ensures { plain_held result ≡ range_at (shown file.now) span }
{
    HeldRange {
        at: span.at,
        part: file.read(span.at, (span.end - span.at) as u32),
    }
}

/// The bytes that a file shows at spans.
fn ranges_at<'f>(
    alloc: Global,
    file: &'f DataFile,
    spans: &[Span],
) -> Result<Vec<HeldRange<'f>>, NoMemory>
    requires { AllByRecursion IsSpan spans.now }
    ensures { IfOk result (λ ranges. map plain_held ranges.items ≡ map (range_at (shown file.now)) spans.now) }
{
    let mut ranges = Vec::with_capacity(alloc, spans.len())?;
    for span in spans {
        ranges.push(range_at(file, *span))?;
    }
    Ok(ranges)
}

/// The pending writes of a file joined to ranges, with the bytes that are shown there, in the order of
/// their places. Takes a time of n log n for n writes.
pub fn pending_ranges(alloc: Global, file: &DataFile) -> Result<Vec<HeldRange<'_>>, NoMemory>
    ensures { IfOk result (λ ranges. AreJoined file.now.content.pending (shown file.now) (map plain_held ranges.items)) }
{
    let mut spans = pending_spans(alloc, file)?;
    sort_spans(&mut spans);
    let joined = join_spans(alloc, &spans)?;
    ranges_at(alloc, file, &joined)
}
