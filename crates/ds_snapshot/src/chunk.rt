//! Bodies as bytes.

ghost use Rattle.std.specs.Prelude.{◌≡◌, ◌+◌, ◌<◌, ◌≤◌, ◌^◌, [], ◌∷◌, length, drop, replicate, IfOk, Some};
ghost use Rattle.ff_xdr.specs.Form.{Fits, spelling};
ghost use Rattle.cluster_model.specs.File.{restarted};
ghost use Rattle.cluster_model.specs.Server.{max_file};
ghost use Rattle.ds_log.specs.Bodies.{HoldsBytes, body_form, body_value, body_in};
ghost use Rattle.ds_log.specs.PlainBodies.{plain_body};
ghost use Rattle.ds_changes.specs.HeldRanges.{plain_held};
ghost use Rattle.ds_changes.specs.Logging.{AreFewRanges, TimesFit};
ghost use Rattle.ds_snapshot.specs.Snapshots.{body_text, chunk_at, chunk_count, file_body};

use cluster_model::Times;
use data_file::DataFile;
use ds_changes::{HeldRange, put_held};
use ds_log::LogBody;
use ff_xdr::{NoMemory, Out, Wire};
use gate_log::Gated;
use std::alloc::Global;

/// How many bytes of a file one body has at most.
pub const CHUNK: u64 = 1_048_576;

/// What stands before a body in an `Out`.
const FRONT: [u8; 5] = [0; 5];

/// The most bytes of a body beside those of a name or of a file.
const REST: usize = 64;

/// Room for a body of so many bytes of a name or a file, behind the bytes that stand before it.
fn begun(alloc: Global, count: usize) -> Result<Out, NoMemory>
    requires { count ≤ max_file }
    ensures { IfOk result (λ out. (out ≡ replicate 5 0) × (length out ≡ 5)) }
{
    let mut out = Out::new(alloc);
    out.reserve(REST + count)?;
    out.raw(&FRONT)?;
    Ok(out)
}

/// The body behind the first five bytes, ready to be appended.
fn framed(alloc: Global, out: Out) -> Result<Gated, NoMemory>
    requires room { 5 ≤ length out }
    requires short { length out < 2 ^ 32 + 5 }
    ensures { IfOk result (λ gated. gated ≡ drop 5 out) }
{
    Gated::new(alloc, &out.bytes()[5..])
}

/// The bytes of a body with so many bytes of a name.
pub fn spelled(alloc: Global, count: usize, body: &LogBody<'_>) -> Result<Gated, NoMemory>
    requires count { count ≤ max_file }
    requires fits { Fits body_form (body_value (plain_body body.now)) }
    requires short { length (spelling body_form (body_value (plain_body body.now))) < 2 ^ 32 }
    ensures read { IfOk result (λ gated. body_in gated ≡ Some (plain_body body.now)) }
    ensures text { IfOk result (λ gated. gated ≡ body_text (plain_body body.now)) }
{
    let mut out = begun(alloc, count)?;
    body.write(&mut out)?;
    framed(alloc, out)
}

/// That there is a file with a name and these attributes: those that last.
pub fn file_held(
    alloc: Global,
    fileid: u64,
    name: &[u8],
    file: &DataFile,
) -> Result<Gated, NoMemory>
    requires { length name.now ≤ 255 }
    ensures read { IfOk result (λ gated. body_in gated ≡ Some (file_body fileid name.now (restarted file.now []))) }
    ensures text { IfOk result (λ gated. gated ≡ body_text (file_body fileid name.now (restarted file.now []))) }
{
    let body = LogBody::File {
        name,
        fileid,
        owner: file.owner(),
        group: file.group(),
        mode: file.mode(),
        times: file.stable_times(),
    };
    spelled(alloc, name.len(), &body)
}

/// How many chunks so many bytes are.
pub fn chunk_count(size: u64) -> u64
    requires { size ≤ max_file }
    ensures { result ≡ chunk_count size }
{
    (size + (CHUNK - 1)) / CHUNK
}

/// That bytes of a file are stable, and its mtime and ctime.
fn range_held(
    alloc: Global,
    fileid: u64,
    times: Times,
    range: HeldRange<'_>,
) -> Result<Gated, NoMemory>
    requires few { AreFewRanges (plain_held range ∷ []) }
    requires times { TimesFit times }
    ensures read { IfOk result (λ gated. body_in gated ≡ Some (HoldsBytes fileid times.mtime times.ctime (plain_held range.entry ∷ []))) }
    ensures text { IfOk result (λ gated. gated ≡ body_text (HoldsBytes fileid times.mtime times.ctime (plain_held range.entry ∷ []))) }
{
    let mut out = begun(alloc, range.part.len())?;
    let ranges = [range];
    put_held(fileid, times.mtime, times.ctime, &ranges, None, &mut out)?;
    framed(alloc, out)
}

/// A chunk of a file's stable bytes.
pub fn chunk_held(
    alloc: Global,
    fileid: u64,
    file: &DataFile,
    chunk: u64,
) -> Result<Gated, NoMemory>
    requires there { chunk < chunk_count (length file.now.content.stable) }
    requires size { length file.now.content.stable ≤ max_file }
    ensures read { IfOk result (λ gated. body_in gated ≡ Some (HoldsBytes fileid file.now.stable_times.mtime file.now.stable_times.ctime (chunk_at file.now.content.stable chunk ∷ []))) }
    ensures text { IfOk result (λ gated. gated ≡ body_text (HoldsBytes fileid file.now.stable_times.mtime file.now.stable_times.ctime (chunk_at file.now.content.stable chunk ∷ []))) }
{
    let times = file.stable_times();
    let at = chunk * CHUNK;
    let part = file.stable_part(at, CHUNK as u32);
    range_held(alloc, fileid, times, HeldRange { at, part })
}
