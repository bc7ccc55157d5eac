//! WRITE (RFC 1813, section 3.3.7).

ghost use Rattle.std.specs.Prelude.{◌≡◌, ◌+◌, ◌-◌, ◌≤◌, ◌<◌, ◌^◌, ◌==◌, length, IfSome};
ghost use Rattle.std.specs.Option.{option_map};
ghost use Rattle.cluster_model.specs.File.{shown, written, Writes};
ghost use Rattle.cluster_model.specs.Server.{write_refusal, max_total, max_file};
ghost use Rattle.ds_procedures.specs.Objects.{object_of, caller, file_attributes, stat_of};
ghost use Rattle.ds_procedures.specs.Write.{is_synced, stability_of, write_done, write_unless, write_plan};
ghost use Rattle.ds_procedures.specs.ServerBases.{IsServer, server_of, size_refusal, write_refusal_by_sizes, Refuses};
ghost use Rattle.ds_procedures.specs.CodePlans.{plain_plan, plain_effect, IsPlanOn, IsReady};
ghost use Rattle.std.specs.Prelude.{[]};

use crate::access::{may_write, tick_refusal};
use crate::answer::Response;
use crate::attributes::{file_attributes, root_attributes, time_of, wcc_between, wcc_same};
use crate::object::Place;
use crate::objects::place_of;
use crate::plan::{Effect, Plan, reply_alone};
use crate::server_base::ServerBase;
use crate::stored::StoredReply;
use cluster_model::{MAX_FILE, MAX_TOTAL, Tick};
use data_file::DataFile;
use nfs3_wire::{Fattr3, StableHow, Stat3, WriteArgs, WriteOk, WriteReply};
use rpc_record::AuthSys;

/// The write is to be stable before its answer.
fn is_synced(how: StableHow) -> bool
    ensures { result ≡ is_synced how }
{
    match how {
        StableHow::Unstable => false,
        StableHow::DataSync => true,
        StableHow::FileSync => true,
    }
}

/// How stable a write's bytes are.
fn stability_of(synced: bool) -> StableHow
    ensures { result ≡ stability_of synced }
{
    if synced {
        StableHow::FileSync
    } else {
        StableHow::Unstable
    }
}

/// Why a WRITE of so many bytes at a place of a file of this size is refused for want of room or of
/// ticks: the file would be too long, the files together would, or no tick is left.
pub fn size_refusal(total: u64, clock: Tick, size: u64, at: u64, length: u64) -> Option<Stat3>
    requires part { size ≤ total }
    requires bounded { total ≤ max_total }
    ensures exact { result ≡ option_map stat_of (size_refusal total clock size at length) }
    ensures status { IfSome result Refuses }
{
    if length == 0 {
        return None;
    }
    if length > MAX_FILE || at > MAX_FILE - length {
        return Some(Stat3::Fbig);
    }
    if total - size + size.max(at + length) > MAX_TOTAL {
        return Some(Stat3::NoSpc);
    }
    tick_refusal(clock)
}

/// Why a WRITE of a file is refused, the first reason in the order of the refusals.
fn refusal(
    head: &ServerBase,
    file: &DataFile,
    args: &WriteArgs<'_>,
    cred: &AuthSys<'_>,
) -> Option<Stat3>
    requires part { length (shown file.now) ≤ head.now.total }
    requires bounded { head.now.total ≤ max_total }
    ensures exact { result ≡ option_map stat_of (write_refusal_by_sizes head.now.total head.now.clock file.now (caller cred.now) (args.now.count == length args.now.bytes.now) args.now.offset args.now.bytes.now) }
    ensures status { IfSome result Refuses }
{
    if !may_write(file, cred) {
        return Some(Stat3::Acces);
    }
    if args.count as usize != args.bytes.len() {
        return Some(Stat3::Inval);
    }
    size_refusal(
        head.total,
        head.clock,
        file.size(),
        args.offset,
        args.bytes.len() as u64,
    )
}

/// A file's attributes after a WRITE that is done.
#[tactic(auto, using(crate::proofs::AttributesAfter::attributes_none))]
fn attributes_after(
    fileid: u64,
    before: Fattr3,
    file: &DataFile,
    tick: Tick,
    at: u64,
    synced: bool,
    bytes: &[u8],
) -> Fattr3
    requires before { before ≡ file_attributes fileid file.now }
    requires fits { 0 < length bytes.now → at + length bytes.now ≤ max_file }
    ensures { result ≡ file_attributes fileid (written file.now tick at synced bytes.now) }
{
    if bytes.is_empty() {
        return before;
    }
    let size = file.size().max(at + bytes.len() as u64);
    let time = time_of(tick);
    Fattr3 {
        size,
        used: size,
        mtime: time,
        ctime: time,
        ..before
    }
}

/// The plan of a WRITE that is done.
fn done<'s, 'c>(
    head: &ServerBase,
    index: usize,
    file: &DataFile,
    args: &WriteArgs<'c>,
) -> Plan<'s, 'c>
    requires ticks { head.now.clock.count < 2 ^ 32 - 1 }
    requires count { args.now.count ≡ length args.now.bytes.now }
    requires fits { 0 < length args.now.bytes.now → args.now.offset + length args.now.bytes.now ≤ max_file }
    requires index { index + 2 < 2 ^ 64 }
    ensures { plain_plan result ≡ write_done (server_of head.now []) index file.now (Writes args.now.offset (is_synced args.now.stable) args.now.bytes.now) (length args.now.bytes.now) (is_synced args.now.stable) }
{
    let synced = is_synced(args.stable);
    let tick = head.clock.next();
    let fileid = index as u64 + 2;
    let before = file_attributes(fileid, file);
    let after = attributes_after(fileid, before, file, tick, args.offset, synced, args.bytes);
    let reply = StoredReply::Write(WriteReply::Done(WriteOk {
        wcc: wcc_between(&before, after),
        count: args.count,
        committed: stability_of(synced),
        verifier: u64::from(head.clock.boot),
    }));
    Plan {
        response: Response::new(reply),
        effect: Effect::Writes {
            index,
            at: args.offset,
            synced,
            bytes: args.bytes,
        },
    }
}

/// The plan of a WRITE on a file.
fn on_file<'s, 'c>(
    head: &ServerBase,
    files: &[DataFile],
    index: usize,
    args: &WriteArgs<'c>,
    cred: &AuthSys<'_>,
) -> Plan<'s, 'c>
    requires server { IsServer head.now files.now }
    requires within { index < length files.now }
    ensures plan { IsPlanOn files.now index (λ f. write_unless (server_of head.now files.now) index f args.now.offset args.now.stable args.now.bytes.now (write_refusal (server_of head.now files.now) index f (caller cred.now) (args.now.count == length args.now.bytes.now) args.now.offset args.now.bytes.now)) result }
    ensures ready { IsReady head.now files.now (plain_effect result.effect) }
{
    let file = &files[index];
    if let Some(status) = refusal(head, file, args, cred) {
        let same = wcc_same(Some(file_attributes(index as u64 + 2, file)));
        return reply_alone(StoredReply::Write(WriteReply::Refused(status, same)));
    }
    done(head, index, file, args)
}

/// The plan of a WRITE.
pub fn write_plan<'s, 'c>(
    head: &ServerBase,
    files: &[DataFile],
    args: &WriteArgs<'c>,
    cred: &AuthSys<'_>,
) -> Plan<'s, 'c>
    requires { IsServer head.now files.now }
    ensures plan { plain_plan result ≡ write_plan (server_of head.now files.now) (object_of files.now args.now.file.now) args.now.offset args.now.count args.now.stable args.now.bytes.now (caller cred.now) }
    ensures ready { IsReady head.now files.now (plain_effect result.effect) }
{
    match place_of(files, args.file) {
        Place::Missing(status) => {
            reply_alone(StoredReply::Write(WriteReply::Refused(status, wcc_same(None))))
        }
        Place::Root => {
            let same = wcc_same(Some(root_attributes(head.root)));
            reply_alone(StoredReply::Write(WriteReply::Refused(Stat3::Inval, same)))
        }
        Place::File(index) => on_file(head, files, index, args, cred),
    }
}
