//! What a body makes of the server that the log said so far.

ghost use Rattle.std.specs.Prelude.{List, IfOk, OnErr, Some};
ghost use Rattle.cluster_model.specs.File.{StoredFile};
ghost use Rattle.ds_procedures.specs.ServerBases.{server_of};
ghost use Rattle.ds_log.specs.Bodies.{Boots, HoldsRoot};
ghost use Rattle.ds_log.specs.PlainBodies.{plain_body};
ghost use Rattle.ds_log.specs.Durable.{applied};
ghost use Rattle.ds_log.specs.Lasting.{IsLasting};
ghost use Rattle.ds_log.specs.Applies.{CameTo, NeedsMemory};

use crate::body::LogBody;
use crate::creating::{NewFile, create, hold_file};
use crate::storing::{hold_bytes, set_attributes};
use cluster_model::{Tick, Times};
use data_file::DataFile;
use ds_procedures::ServerBase;
use ff_xdr::NoMemory;
use std::alloc::Global;

/// Begins a boot behind the last one, whatever files there are.
fn begin_boot(head: &mut ServerBase, boot: u32) -> bool
    ensures came { (files : List StoredFile) → CameTo (applied (server_of head.old files) (Boots boot)) (server_of head.old files) result (server_of head.new files) }
    ensures keeps { (files : List StoredFile) → IsLasting head.old files → IsLasting head.new files }
{
    if boot <= head.clock.boot {
        return false;
    }
    head.clock = Tick { boot, count: 0 };
    true
}

/// Sets the root's times, whatever files there are, where their ctime is of a boot that has begun.
fn set_root(head: &mut ServerBase, times: Times) -> bool
    ensures came { (files : List StoredFile) → CameTo (applied (server_of head.old files) (HoldsRoot times)) (server_of head.old files) result (server_of head.new files) }
    ensures keeps { (files : List StoredFile) → IsLasting head.old files → IsLasting head.new files }
{
    if times.ctime.boot > head.clock.boot {
        return false;
    }
    head.root = times;
    true
}

/// Does what a body says where it fits, and says whether it does.
pub fn apply_body(
    alloc: Global,
    head: &mut ServerBase,
    files: &mut Vec<DataFile>,
    body: &LogBody<'_>,
) -> Result<bool, NoMemory>
    requires { IsLasting head.old files.old.items }
    ensures came { IfOk result (λ fits. CameTo (applied (server_of head.old files.old.items) (plain_body body.now)) (server_of head.old files.old.items) fits (server_of head.new files.new.items)) }
    ensures keeps { IsLasting head.new files.new.items }
    ensures wanted { OnErr result (NeedsMemory (Some (plain_body body.now))) }
{
    match body {
        LogBody::Boot(boot) => Ok(begin_boot(head, *boot)),
        LogBody::Create {
            name,
            fileid,
            owner,
            group,
            mode,
            tick,
        } => {
            let new = NewFile {
                name,
                fileid: *fileid,
                owner: *owner,
                group: *group,
                mode: *mode,
            };
            create(alloc, head, files, &new, *tick)
        }
        LogBody::SetAttr {
            fileid,
            owner,
            group,
            mode,
            times,
        } => Ok(set_attributes(head, files, *fileid, *owner, *group, *mode, times)),
        LogBody::Bytes {
            fileid,
            mtime,
            ctime,
            ranges,
        } => hold_bytes(head, files, *fileid, *mtime, *ctime, &ranges.items),
        LogBody::File {
            name,
            fileid,
            owner,
            group,
            mode,
            times,
        } => {
            let new = NewFile {
                name,
                fileid: *fileid,
                owner: *owner,
                group: *group,
                mode: *mode,
            };
            hold_file(alloc, head, files, &new, *times)
        }
        LogBody::Root(times) => Ok(set_root(head, *times)),
    }
}
