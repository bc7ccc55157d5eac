//! Where the pending writes of a file stand.

ghost use Rattle.std.specs.Prelude.{◌≡◌, map, IfOk};
ghost use Rattle.std.specs.List.{AllByRecursion};
ghost use Rattle.std.specs.List.Sorted.{IsPermutation, IsNonDecreasingBy};
ghost use Rattle.ds_changes.specs.Spans.{span_of, IsSpan};

use data_file::DataFile;
use ff_xdr::NoMemory;
use std::alloc::Global;

/// The places of bytes from one up to another, which is not among them.
#[derive(Clone, Copy)]
pub struct Span {
    pub at: u64,
    pub end: u64,
}

/// Where the pending writes of a file stand, in their order.
pub fn pending_spans(alloc: Global, file: &DataFile) -> Result<Vec<Span>, NoMemory>
    ensures exact { IfOk result (λ spans. spans.items ≡ map span_of file.now.content.pending) }
    ensures sound { IfOk result (λ spans. AllByRecursion IsSpan spans.items) }
{
    let mut spans = Vec::with_capacity(alloc, file.pending_count())?;
    while let Some((at, count)) = file.pending_at(spans.len()) {
        spans.push(Span {
            at,
            end: at + count,
        })?;
    }
    Ok(spans)
}

/// Puts spans in the order of their first places. Takes no memory.
pub fn sort_spans(spans: &mut Vec<Span>)
    ensures permutation { IsPermutation spans.old.items spans.new.items }
    ensures sorted { IsNonDecreasingBy (λ s. s.at) spans.new.items }
{
    spans.sort_unstable_by_key(|span| span.at);
}
