//! Spans joined where no place is between them.

ghost use Rattle.std.specs.Prelude.{◌≡◌, ◌≤◌, [], ◌∷◌, ◌++◌, IfOk};
ghost use Rattle.std.specs.List.{AllByRecursion};
ghost use Rattle.ds_changes.specs.Spans.{AreSpansRising, IsSpan, JoinSpans, AddsSpan};

use crate::span::Span;
use ff_xdr::NoMemory;
use std::alloc::Global;

/// Adds a span behind those that are done and the one that others may still join. Returns the one that
/// others may join then: the same, where no place is between them, else the new one.
fn add(done: &mut Vec<Span>, last: Span, span: Span) -> Result<Span, NoMemory>
    requires { last.at ≤ span.at }
    ensures added { IfOk result (λ next. AddsSpan (done.old.items ++ last ∷ []) span (done.new.items ++ next ∷ [])) }
    ensures behind { IfOk result (λ next. next.at ≤ span.at) }
{
    if span.at <= last.end {
        return Ok(Span {
            at: last.at,
            end: last.end.max(span.end),
        });
    }
    done.push(last)?;
    Ok(span)
}

/// The spans joined: all that are within each other, or side by side, are one. They come in the order of
/// their first places.
pub fn join_spans(alloc: Global, spans: &[Span]) -> Result<Vec<Span>, NoMemory>
    requires rising { AreSpansRising 0 spans.now }
    requires sound { AllByRecursion IsSpan spans.now }
    ensures { IfOk result (λ joined. JoinSpans spans.now joined.items) }
{
    let mut done = Vec::new(alloc);
    let Some((first, mut rest)) = spans.split_first() else {
        return Ok(done);
    };
    let mut last = *first;
    while let Some((span, others)) = rest.split_first() {
        last = add(&mut done, last, *span)?;
        rest = others;
    }
    done.push(last)?;
    Ok(done)
}
