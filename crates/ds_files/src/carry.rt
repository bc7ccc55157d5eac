//! What a plan does to the server.

ghost use Rattle.std.specs.Prelude.{◌≡◌, ◌+◌, ◌-◌, ◌≤◌, ◌<◌, ◌^◌, None, OnOk, OnErr, length};
ghost use Rattle.cluster_model.specs.File.{Writes, Commits, Sets, written};
ghost use Rattle.cluster_model.specs.Server.{OnFile, NewFile, max_total, max_file, max_ticks, index_of};
ghost use Rattle.ds_procedures.specs.ServerBases.{IsServer};
ghost use Rattle.ds_procedures.specs.CodePlans.{IsReady, plain_effect};
ghost use Rattle.ds_files.specs.CarriedOut.{IsCarriedOut, head_after};

use cluster_model::{Changes, Tick};
use data_file::DataFile;
use ds_procedures::{Effect, ServerBase, root_after};
use ff_xdr::NoMemory;
use std::alloc::Global;

/// Puts the bytes of a WRITE into a file.
#[tactic(auto, using(cluster_model::proofs::Files::written_none))]
fn put(file: &mut DataFile, tick: Tick, at: u64, synced: bool, bytes: &[u8]) -> Result<(), NoMemory>
    requires { 0 < length bytes.now → at + length bytes.now ≤ max_file }
    ensures ok { OnOk result (file.new ≡ written file.old tick at synced bytes.now) }
    ensures err { OnErr result (file.new ≡ file.old) }
{
    // one of no bytes is put at the start, since its place may be past what a file may have
    let at = if bytes.is_empty() { 0 } else { at };
    file.write(tick, at, synced, bytes)?;
    Ok(())
}

/// Counts a WRITE of the bytes, by the file's size before it and after it.
fn count_write(head: &mut ServerBase, before: u64, after: u64, bytes: &[u8])
    requires part { before ≤ head.old.total }
    requires bounded { head.old.total - before + after ≤ max_total }
    requires ticks { head.old.clock.count < 2 ^ 32 - 1 }
    ensures { head.new ≡ head_after head.old before after bytes.now }
{
    if !bytes.is_empty() {
        head.clock = head.clock.next();
    }
    head.total = head.total - before + after;
}

/// Does a WRITE to the file at an index. At an error nothing has changed.
fn write_file(
    head: &mut ServerBase,
    files: &mut [DataFile],
    index: usize,
    at: u64,
    synced: bool,
    bytes: &[u8],
) -> Result<(), NoMemory>
    requires server { IsServer head.old files.old }
    requires ready { IsReady head.old files.old (OnFile index (Writes at synced bytes.now)) }
    ensures ok { OnOk result (IsCarriedOut head.old files.old (OnFile index (Writes at synced bytes.now)) head.new files.new) }
    ensures err { OnErr result ((head.new ≡ head.old) × (files.new ≡ files.old)) }
{
    let file = &mut files[index];
    let before = file.size();
    put(file, head.clock.next(), at, synced, bytes)?;
    count_write(head, before, file.size(), bytes);
    Ok(())
}

/// Does a COMMIT of the file at an index. Takes no memory.
fn commit_file(head: &ServerBase, files: &mut [DataFile], index: usize)
    requires server { IsServer head.now files.old }
    requires within { index < length files.old }
    ensures { IsCarriedOut head.now files.old (OnFile index Commits) head.now files.new }
{
    files[index].commit();
}

/// Does a SETATTR of the file at an index. Takes no memory.
fn set_file(head: &mut ServerBase, files: &mut [DataFile], index: usize, changes: &Changes)
    requires server { IsServer head.old files.old }
    requires within { index < length files.old }
    requires ticks { head.old.clock.count < max_ticks }
    ensures { IsCarriedOut head.old files.old (OnFile index (Sets changes.now)) head.new files.new }
{
    let tick = head.clock.next();
    files[index].set(tick, changes);
    head.clock = tick;
}

/// Makes a file. At an error nothing has changed.
fn make_file(
    alloc: Global,
    head: &mut ServerBase,
    files: &mut Vec<DataFile>,
    name: &[u8],
    owner: u32,
    group: u32,
    mode: u32,
) -> Result<(), NoMemory>
    requires server { IsServer head.old files.old.items }
    requires ticks { head.old.clock.count < max_ticks }
    requires absent { index_of head.old.names name.now ≡ None }
    ensures ok { OnOk result (IsCarriedOut head.old files.old.items (NewFile name.now owner group mode) head.new files.new.items) }
    ensures err { OnErr result ((head.new ≡ head.old) × (files.new.items ≡ files.old.items)) }
{
    let tick = head.clock.next();
    files.push(DataFile::new(alloc, owner, group, mode, tick))?;
    if let Err(error) = head.names.add(name) {
        let _ = files.pop();
        return Err(error);
    }
    head.clock = tick;
    head.root = root_after(head.root, tick);
    Ok(())
}

/// Does what is to be done. At an error nothing has changed.
pub fn carry_out(
    alloc: Global,
    head: &mut ServerBase,
    files: &mut Vec<DataFile>,
    effect: &Effect<'_>,
) -> Result<(), NoMemory>
    requires server { IsServer head.old files.old.items }
    requires ready { IsReady head.old files.old.items (plain_effect effect.now) }
    ensures ok { OnOk result (IsCarriedOut head.old files.old.items (plain_effect effect.now) head.new files.new.items) }
    ensures err { OnErr result ((head.new ≡ head.old) × (files.new.items ≡ files.old.items)) }
{
    match effect {
        Effect::Nothing => Ok(()),
        Effect::Writes {
            index,
            at,
            synced,
            bytes,
        } => write_file(head, files, *index, *at, *synced, bytes),
        Effect::Commits { index } => {
            commit_file(head, files, *index);
            Ok(())
        }
        Effect::Sets { index, changes } => {
            set_file(head, files, *index, changes);
            Ok(())
        }
        Effect::Makes {
            name,
            owner,
            group,
            mode,
        } => make_file(alloc, head, files, name, *owner, *group, *mode),
    }
}
