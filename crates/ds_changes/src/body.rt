//! Bodies as bytes.

ghost use Rattle.std.specs.Prelude.{◌≡◌, ◌+◌, ◌<◌, ◌≤◌, ◌^◌, ◌++◌, map, IfOk, Some};
ghost use Rattle.ff_xdr.specs.Form.{Fits};
ghost use Rattle.cluster_model.specs.Ticks.{next_tick};
ghost use Rattle.cluster_model.specs.File.{set, Sets};
ghost use Rattle.cluster_model.specs.Server.{NewFile, max_ticks};
ghost use Rattle.ds_files.specs.Decisions.{IsMakeable};
ghost use Rattle.ds_log.specs.Bodies.{HoldsBytes, tick_form, tick_value, body_form, body_value};
ghost use Rattle.ds_log.specs.PlainBodies.{plain_body};
ghost use Rattle.ds_changes.specs.Changes.{OpBody, BodyOf};
ghost use Rattle.ds_changes.specs.HeldRanges.{plain_held};
ghost use Rattle.ds_changes.specs.Logging.{Spelled, Spells, AreFewRanges, IsOwn, own_of};

use crate::held::{HeldRange, put_held};
use cluster_model::{Changes, Tick};
use data_file::{DataFile, times_set};
use ds_files::DataServer;
use ds_log::{LogBody, Range};
use ff_xdr::{NoMemory, Out, Wire};
use std::alloc::Global;

/// The bytes of a body.
#[tactic(auto, using(crate::proofs::BodySizes::spelled_as))]
fn spelled(alloc: Global, body: &LogBody<'_>) -> Result<Vec<u8>, NoMemory>
    requires { Fits body_form (body_value (plain_body body.now)) }
    ensures { IfOk result (λ bytes. Spelled (plain_body body.now) bytes.items) }
{
    let mut out = Out::new(alloc);
    body.write(&mut out)?;
    Ok(out.into_bytes())
}

/// That a file was made in the root.
pub fn created(
    alloc: Global,
    server: &DataServer,
    name: &[u8],
    owner: u32,
    group: u32,
    mode: u32,
) -> Result<Vec<u8>, NoMemory>
    requires made { IsMakeable name.now mode }
    requires ticks { server.now.clock.count < max_ticks }
    ensures { IfOk result (λ bytes. Spells (λ body. BodyOf server.now (NewFile name.now owner group mode) (Some body)) bytes.items) }
{
    let fileid = server.file_count() as u64 + 2;
    let tick = server.clock().next();
    let body = LogBody::Create {
        name,
        fileid,
        owner,
        group,
        mode,
        tick,
    };
    spelled(alloc, &body)
}

/// That attributes of the file at an index were set, behind the last tick that was given.
pub fn attributes_set(
    alloc: Global,
    clock: Tick,
    index: usize,
    file: &DataFile,
    changes: &Changes,
) -> Result<Vec<u8>, NoMemory>
    requires ticks { clock.count < max_ticks }
    requires index { index + 2 < 2 ^ 64 }
    ensures { IfOk result (λ bytes. Spells (λ body. OpBody clock index file.now (Sets changes.now) (Some body)) bytes.items) }
{
    let body = LogBody::SetAttr {
        fileid: index as u64 + 2,
        owner: changes.owner.unwrap_or(file.owner()),
        group: changes.group.unwrap_or(file.group()),
        mode: changes.mode.unwrap_or(file.mode()),
        times: times_set(file.times(), clock.next(), changes),
    };
    spelled(alloc, &body)
}

/// That bytes of a file became stable: ranges of the file, and behind them a write's own.
pub fn bytes_held(
    alloc: Global,
    fileid: u64,
    mtime: Tick,
    ctime: Tick,
    ranges: &[HeldRange<'_>],
    own: Option<Range<'_>>,
) -> Result<Vec<u8>, NoMemory>
    requires few { AreFewRanges (map plain_held ranges.now ++ own_of own) }
    requires own { IsOwn (own_of own) }
    requires mtime { Fits tick_form (tick_value mtime) }
    requires ctime { Fits tick_form (tick_value ctime) }
    ensures { IfOk result (λ bytes. Spells (λ body. body ≡ HoldsBytes fileid mtime ctime (map plain_held ranges.now ++ own_of own.entry)) bytes.items) }
{
    let mut out = Out::new(alloc);
    put_held(fileid, mtime, ctime, ranges, own, &mut out)?;
    Ok(out.into_bytes())
}
