//! A file that was made in the root, or that there is.

ghost use Rattle.std.specs.Prelude.{◌≡◌, ◌+◌, ◌==◌, ◌&&◌, ◌<◌, ◌≤◌, IfOk, OnErr, OnOk, IsTrue, length, nat_le, nat_lt};
ghost use Rattle.ds_procedures.specs.declared.setattr.TheConstants.{MODE_BITS};
ghost use Rattle.ds_procedures.specs.ServerBases.{server_of};
ghost use Rattle.ds_log.specs.Durable.{applied, with_lasting_file, is_good_name};
ghost use Rattle.ds_log.specs.Lasting.{IsLasting};
ghost use Rattle.ds_log.specs.Applies.{CameTo};
ghost use Rattle.ds_log.specs.NewFiles.{creation, held_file};

use crate::storing::FIRST;
use cluster_model::{Tick, Times};
use data_file::DataFile;
use ds_procedures::{MAX_NAME, MODE_BITS, Names, ServerBase, root_after};
use ff_xdr::NoMemory;
use std::alloc::Global;

/// A file as a body names it.
#[derive(Clone, Copy)]
pub struct NewFile<'a> {
    pub name: &'a [u8],
    pub fileid: u64,
    pub owner: u32,
    pub group: u32,
    pub mode: u32,
}

/// There may be a file with a name: it is neither empty nor too long, and no file has it.
fn is_good_name(names: &Names, name: &[u8]) -> bool
    ensures { result ≡ is_good_name names.now name.now }
{
    !name.is_empty() && name.len() <= MAX_NAME && names.index_of(name).is_none()
}

/// A fileid is the next behind so many files.
fn is_next(count: usize, fileid: u64) -> bool
    ensures { result ≡ (fileid == count + 2) }
{
    fileid >= FIRST && fileid - FIRST == count as u64
}

/// There may be a file behind so many files, whose ctime is a tick.
fn may_add(head: &ServerBase, count: usize, new: &NewFile<'_>, ctime: Tick) -> bool
    ensures { result ≡ (is_good_name head.now.names new.now.name.now && new.now.fileid == count + 2 && nat_lt new.now.mode MODE_BITS && nat_le ctime.boot head.now.clock.boot) }
{
    is_good_name(&head.names, new.name)
        && is_next(count, new.fileid)
        && new.mode < MODE_BITS
        && ctime.boot <= head.clock.boot
}

/// Adds a file that there may be, with these times. At an error nothing has changed.
fn add_file(
    alloc: Global,
    head: &mut ServerBase,
    files: &mut Vec<DataFile>,
    new: &NewFile<'_>,
    times: Times,
) -> Result<(), NoMemory>
    requires lasting { IsLasting head.old files.old.items }
    requires may { IsTrue (is_good_name head.old.names new.now.name.now) }
    requires mode { new.now.mode < MODE_BITS }
    requires begun { times.ctime.boot ≤ head.old.clock.boot }
    ensures added { OnOk result (server_of head.new files.new.items ≡ with_lasting_file (server_of head.old files.old.items) new.now.name.now new.now.owner new.now.group new.now.mode times) }
    ensures keeps { IsLasting head.new files.new.items }
    ensures err { OnErr result ((head.new ≡ head.old) × (files.new.items ≡ files.old.items)) }
{
    files.reserve(1)?;
    head.names.add(new.name)?;
    let file = DataFile::with_times(alloc, new.owner, new.group, new.mode, times);
    files.push(file)?;
    Ok(())
}

/// Makes a file at a tick, where it may be made. At an error nothing has changed.
pub fn create(
    alloc: Global,
    head: &mut ServerBase,
    files: &mut Vec<DataFile>,
    new: &NewFile<'_>,
    tick: Tick,
) -> Result<bool, NoMemory>
    requires { IsLasting head.old files.old.items }
    ensures came { IfOk result (λ fits. CameTo (applied (server_of head.old files.old.items) (creation new.now tick)) (server_of head.old files.old.items) fits (server_of head.new files.new.items)) }
    ensures keeps { IsLasting head.new files.new.items }
    ensures err { OnErr result ((head.new ≡ head.old) × (files.new.items ≡ files.old.items)) }
{
    if !may_add(head, files.len(), new, tick) {
        return Ok(false);
    }
    let times = Times {
        atime: tick,
        mtime: tick,
        ctime: tick,
    };
    add_file(alloc, head, files, new, times)?;
    head.root = root_after(head.root, tick);
    Ok(true)
}

/// Adds a file with these times, where there may be one; the root stays as it is. At an error nothing has changed.
pub fn hold_file(
    alloc: Global,
    head: &mut ServerBase,
    files: &mut Vec<DataFile>,
    new: &NewFile<'_>,
    times: Times,
) -> Result<bool, NoMemory>
    requires { IsLasting head.old files.old.items }
    ensures came { IfOk result (λ fits. CameTo (applied (server_of head.old files.old.items) (held_file new.now times)) (server_of head.old files.old.items) fits (server_of head.new files.new.items)) }
    ensures keeps { IsLasting head.new files.new.items }
    ensures err { OnErr result ((head.new ≡ head.old) × (files.new.items ≡ files.old.items)) }
{
    if !may_add(head, files.len(), new, times.ctime) {
        return Ok(false);
    }
    add_file(alloc, head, files, new, times)?;
    Ok(true)
}
