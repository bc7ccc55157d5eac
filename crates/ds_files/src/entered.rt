//! The entries of the journal that a step makes.

ghost use Rattle.std.specs.Prelude.{◌≡◌, ◌+◌, ◌<◌, ◌^◌, ◌++◌, IfOk};
ghost use Rattle.cluster_model.specs.Server.{applied_entries, committed_entries, owner_entries, entries_of};
ghost use Rattle.ds_procedures.specs.ServerBases.{server_of};
ghost use Rattle.ds_procedures.specs.CodePlans.{plain_effect, IsReady};
ghost use Rattle.ds_files.specs.Posts.{entries_made};

use crate::logging::Logging;
use cluster_model::{Cred, Entry, MirrorId};
use data_file::DataFile;
use ds_procedures::{Effect, ServerBase};
use ff_xdr::{Data, NoMemory};
use std::alloc::Global;

/// The entries of a WRITE.
fn write_entries(
    alloc: Global,
    mirror: MirrorId,
    uid: u32,
    at: u64,
    synced: bool,
    bytes: &[u8],
) -> Result<Vec<Entry>, NoMemory>
    ensures { IfOk result (λ entries. entries.items ≡ applied_entries mirror uid at bytes.now ++ committed_entries mirror synced) }
{
    let mut entries = Vec::new(alloc);
    if !bytes.is_empty() {
        let bytes = Data::of(alloc, bytes)?;
        entries.push(Entry::Applied {
            mirror,
            cred: Cred(uid),
            at,
            bytes,
        })?;
    }
    if synced {
        entries.push(Entry::Committed { mirror })?;
    }
    Ok(entries)
}

/// The entry of a new owner, where one is named.
fn owner_entries(alloc: Global, mirror: MirrorId, uid: Option<u32>) -> Result<Vec<Entry>, NoMemory>
    ensures { IfOk result (λ entries. entries.items ≡ owner_entries mirror uid) }
{
    let mut entries = Vec::new(alloc);
    if let Some(uid) = uid {
        entries.push(Entry::Owner {
            mirror,
            cred: Cred(uid),
        })?;
    }
    Ok(entries)
}

/// The mirror that the file at an index is.
fn mirror_of(head: &ServerBase, index: usize) -> MirrorId
    requires { index + 2 < 2 ^ 64 }
    ensures { result ≡ record { server = head.now.number; fileid = index + 2 } }
{
    MirrorId {
        server: head.number,
        fileid: index as u64 + 2,
    }
}

/// The entries of what is to be done for a user.
pub fn entries_of(
    alloc: Global,
    head: &ServerBase,
    files: &[DataFile],
    effect: &Effect<'_>,
    uid: u32,
) -> Result<Vec<Entry>, NoMemory>
    requires { IsReady head.now files.now (plain_effect effect.now) }
    ensures { IfOk result (λ entries. entries.items ≡ entries_of (server_of head.now files.now) uid (plain_effect effect.now)) }
{
    match effect {
        Effect::Nothing => Ok(Vec::new(alloc)),
        Effect::Writes {
            index,
            at,
            synced,
            bytes,
        } => write_entries(alloc, mirror_of(head, *index), uid, *at, *synced, bytes),
        Effect::Commits { index } => {
            let mut entries = Vec::new(alloc);
            entries.push(Entry::Committed {
                mirror: mirror_of(head, *index),
            })?;
            Ok(entries)
        }
        Effect::Sets { index, changes } => {
            owner_entries(alloc, mirror_of(head, *index), changes.owner)
        }
        Effect::Makes { owner, .. } => {
            owner_entries(alloc, mirror_of(head, files.len()), Some(*owner))
        }
    }
}

/// Those of them that a journal wants; takes no memory where none is kept.
pub fn entries_made(
    logging: Logging,
    alloc: Global,
    head: &ServerBase,
    files: &[DataFile],
    effect: &Effect<'_>,
    uid: u32,
) -> Result<Vec<Entry>, NoMemory>
    requires { IsReady head.now files.now (plain_effect effect.now) }
    ensures { IfOk result (λ entries. entries.items ≡ entries_made logging (entries_of (server_of head.now files.now) uid (plain_effect effect.now))) }
{
    match logging {
        Logging::On => entries_of(alloc, head, files, effect, uid),
        Logging::Off => Ok(Vec::new(alloc)),
    }
}
