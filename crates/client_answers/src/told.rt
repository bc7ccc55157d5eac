//! Writes that count as committed to the user.

ghost use Rattle.std.specs.Prelude.{◌≡◌, [], slice_get, IfOk, OnOk};
ghost use Rattle.mirror_writer.specs.Outstanding.{is_covered_everywhere};
ghost use Rattle.client_answers.specs.ClientMirrors.{counted_on, told_entry, told_entries, tells_covered};
ghost use Rattle.client_answers.specs.ClientAnswers.{layout_returned};
ghost use Rattle.client_state.specs.QueueSteps.{HasRun};
ghost use Rattle.client_answers.specs.AnswerSteps.{Splits, PutsEntries, TellsCovered};

use client_mds_calls::OpenFile;
use client_state::{Layout, State, Untold};
use cluster_model::{Entry, Outbox};
use ff_xdr::NoMemory;
use mirror_writer::Writer;
use std::alloc::Global;

/// The writes of these that each mirror has covered, and the others, in order.
fn split_covered(
    alloc: Global,
    writer: &Writer,
    untold: &Untold,
) -> Result<(Untold, Untold), NoMemory>
    ensures { IfOk result (λ parts. Splits (is_covered_everywhere writer.now) untold.now parts.0 parts.1) }
{
    let mut covered = Untold::new(alloc);
    let mut rest = Untold::new(alloc);
    for number in untold.numbers() {
        if writer.covered_everywhere(*number) {
            covered.push(*number)?;
        } else {
            rest.push(*number)?;
        }
    }
    Ok((covered, rest))
}

/// Enters that the taken write of this number is told.
fn tell(
    alloc: Global,
    file: OpenFile,
    writer: &Writer,
    number: usize,
    out: &mut Outbox,
) -> Result<(), NoMemory>
    ensures { OnOk result (PutsEntries (told_entry file writer.now.cred (slice_get writer.now.taken number)) out.old out.new) }
{
    let Some((at, bytes)) = writer.write_numbered(number) else {
        return Ok(());
    };
    let bytes = bytes.data().share(alloc)?;
    out.entries.push(Entry::Told {
        file: file.file,
        cred: writer.cred(),
        at,
        bytes,
    })?;
    Ok(())
}

/// Enters that these are told, in order.
fn tell_all(
    alloc: Global,
    file: OpenFile,
    writer: &Writer,
    numbers: &Untold,
    out: &mut Outbox,
) -> Result<(), NoMemory>
    ensures { OnOk result (PutsEntries (told_entries file writer.now numbers.now) out.old out.new) }
{
    for number in numbers.numbers() {
        tell(alloc, file, writer, *number, out)?;
    }
    Ok(())
}

/// A count that stands still at the end of its range.
fn counted_on(told: u32, more: usize) -> u32
    ensures { result ≡ counted_on told more }
{
    match u32::try_from(more) {
        Ok(more) => told.saturating_add(more),
        Err(_) => u32::MAX,
    }
}

/// The writes that are covered by now are told. Answers how many.
fn tell_covered_under(
    layout: &mut Layout,
    alloc: Global,
    file: OpenFile,
    out: &mut Outbox,
) -> Result<usize, NoMemory>
    ensures { IfOk result (λ count. TellsCovered file layout.old count out.old layout.new out.new) }
{
    let (covered, rest) = split_covered(alloc, &layout.writer, &layout.untold)?;
    tell_all(alloc, file, &layout.writer, &covered, out)?;
    layout.untold = rest;
    Ok(covered.numbers().len())
}

/// The writes that are covered by now are told.
pub fn tell_covered(client: &mut State, file: OpenFile, out: &mut Outbox) -> Result<(), NoMemory>
    ensures { OnOk result (HasRun (tells_covered file client.old.layout client.old) out.old client.new out.new) }
{
    let alloc = client.alloc;
    let Some(layout) = &mut client.layout else {
        return Ok(());
    };
    let count = tell_covered_under(layout, alloc, file, out)?;
    client.told = counted_on(client.told, count);
    Ok(())
}

/// The layout is given back: the writes that are not told count as committed now.
pub fn end_return(client: &mut State, out: &mut Outbox) -> Result<(), NoMemory>
    ensures { OnOk result (HasRun (layout_returned client.old.file client.old.layout client.old) out.old client.new out.new) }
{
    let Some(file) = client.file else {
        return Ok(());
    };
    let Some(layout) = client.layout.take() else {
        return Ok(());
    };
    tell_all(client.alloc, file, &layout.writer, &layout.untold, out)?;
    client.told = counted_on(client.told, layout.untold.numbers().len());
    Ok(())
}
