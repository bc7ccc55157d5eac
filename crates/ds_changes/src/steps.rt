//! The body that is logged of a step.

ghost use Rattle.std.specs.Prelude.{◌≡◌, ◌+◌, ◌<◌, ◌^◌, length, option_copied, option_map, vec_items, slice_get, IfOk, IfSome};
ghost use Rattle.cluster_model.specs.File.{Writes, Commits, Sets};
ghost use Rattle.cluster_model.specs.Server.{OnFile};
ghost use Rattle.ds_procedures.specs.CodePlans.{plain_effect};
ghost use Rattle.ds_files.specs.Decisions.{CanDo};
ghost use Rattle.ds_log.specs.Steady.{IsSteady};
ghost use Rattle.ds_changes.specs.Logging.{Logs};

use crate::body::{attributes_set, created};
use crate::stable::{committed, written};
use cluster_model::Changes;
use data_file::DataFile;
use ds_files::{DataServer, Effect};
use ff_xdr::NoMemory;
use std::alloc::Global;

/// The data file at an index, where there is one.
fn file_at(server: &DataServer, index: usize) -> Option<&DataFile>
    ensures exact { option_copied result ≡ slice_get server.now.files index }
    ensures index { IfSome result (λ _. index + 2 < 2 ^ 64) }
{
    if index >= server.file_count() {
        return None;
    }
    server.file(index as u64 + 2)
}

/// The body of a WRITE: an unstable one has none.
fn write_body<'f>(
    alloc: Global,
    server: &'f DataServer,
    index: usize,
    at: u64,
    synced: bool,
    bytes: &'f [u8],
) -> Result<Option<Vec<u8>>, NoMemory>
    requires can { CanDo server.now (OnFile index (Writes at synced bytes.now)) }
    requires steady { IsSteady server.now }
    ensures { IfOk result (λ body. Logs server.now (OnFile index (Writes at synced bytes.entry.now)) (option_map vec_items body)) }
{
    if !synced {
        return Ok(None);
    }
    let Some(file) = file_at(server, index) else {
        return Ok(None);
    };
    written(alloc, server.clock(), index, file, at, bytes)
}

/// The body of a COMMIT.
fn commit_body(
    alloc: Global,
    server: &DataServer,
    index: usize,
) -> Result<Option<Vec<u8>>, NoMemory>
    requires can { CanDo server.now (OnFile index Commits) }
    requires steady { IsSteady server.now }
    ensures { IfOk result (λ body. Logs server.now (OnFile index Commits) (option_map vec_items body)) }
{
    let Some(file) = file_at(server, index) else {
        return Ok(None);
    };
    committed(alloc, index, file)
}

/// The body of a SETATTR.
fn set_body(
    alloc: Global,
    server: &DataServer,
    index: usize,
    changes: &Changes,
) -> Result<Option<Vec<u8>>, NoMemory>
    requires can { CanDo server.now (OnFile index (Sets changes.now)) }
    ensures { IfOk result (λ body. Logs server.now (OnFile index (Sets changes.now)) (option_map vec_items body)) }
{
    let Some(file) = file_at(server, index) else {
        return Ok(None);
    };
    let body = attributes_set(alloc, server.clock(), index, file, changes)?;
    Ok(Some(body))
}

/// The body that is to be logged of a step before it is carried out and answered: what is to last of
/// it. None where what lasts stays as it is: so for an unstable WRITE, and a COMMIT of nothing.
///
/// # Errors
///
/// `NoMemory` where memory is wanted: for the ranges of what is pending, and for the body.
pub fn log_body(
    alloc: Global,
    server: &DataServer,
    effect: &Effect<'_>,
) -> Result<Option<Vec<u8>>, NoMemory>
    requires can { CanDo server.now (plain_effect effect.now) }
    requires steady { IsSteady server.now }
    ensures { IfOk result (λ bytes. Logs server.now (plain_effect effect.now) (option_map vec_items bytes)) }
{
    match effect {
        Effect::Nothing => Ok(None),
        Effect::Writes {
            index,
            at,
            synced,
            bytes,
        } => write_body(alloc, server, *index, *at, *synced, bytes),
        Effect::Commits { index } => commit_body(alloc, server, *index),
        Effect::Sets { index, changes } => set_body(alloc, server, *index, changes),
        Effect::Makes {
            name,
            owner,
            group,
            mode,
        } => {
            let body = created(alloc, server, name, *owner, *group, *mode)?;
            Ok(Some(body))
        }
    }
}
