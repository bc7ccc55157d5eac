//! SETATTR (RFC 1813, section 3.3.2).

ghost use Rattle.std.specs.Prelude.{◌≡◌, ◌+◌, ◌-◌, ◌<◌, ◌^◌, [], length, not, is_some, IfSome};
ghost use Rattle.std.specs.Option.{option_map};
ghost use Rattle.cluster_model.specs.File.{set, time_set};
ghost use Rattle.cluster_model.specs.Server.{differs, set_refusal};
ghost use Rattle.ds_procedures.specs.Objects.{object_of, caller, file_attributes, time_of, stat_of};
ghost use Rattle.ds_procedures.specs.Setattr.{tick_of, new_time, mode_of, changes_of, set_done, set_unless, set_plan};
ghost use Rattle.ds_procedures.specs.ServerBases.{IsServer, server_of, Refuses};
ghost use Rattle.ds_procedures.specs.CodePlans.{plain_plan, plain_effect, IsPlanOn, IsReady};

use crate::access::tick_refusal;
use crate::answer::Response;
use crate::attributes::{file_attributes, root_attributes, time_of, wcc_between, wcc_same};
use crate::object::Place;
use crate::objects::place_of;
use crate::plan::{Effect, Plan, reply_alone};
use crate::server_base::ServerBase;
use crate::stored::StoredReply;
use cluster_model::{Changes, NewTime, Tick};
use data_file::DataFile;
use nfs3_wire::{Fattr3, Sattr3, SetAttrArgs, SetAttrReply, SetTime, Stat3, Time3};
use rpc_record::AuthSys;

/// The permission bits of a mode.
pub const MODE_BITS: u32 = 4_096;

/// A time as a tick: the seconds are the boot, the nanoseconds the count.
fn tick_of(time: Time3) -> Tick
    ensures { result ≡ tick_of time }
{
    Tick {
        boot: time.seconds,
        count: time.nanos,
    }
}

/// What a time is set to.
fn new_time(time: SetTime) -> NewTime
    ensures { result ≡ new_time time }
{
    match time {
        SetTime::Keep => NewTime::Keep,
        SetTime::Server => NewTime::Now,
        SetTime::Client(time) => NewTime::At(tick_of(time)),
    }
}

/// A mode, by its lowest twelve bits.
pub fn mode_of(mode: Option<u32>) -> Option<u32>
    ensures { result ≡ mode_of mode }
{
    match mode {
        None => None,
        Some(mode) => Some(mode % MODE_BITS),
    }
}

/// What a SETATTR sets.
fn changes_of(attributes: &Sattr3) -> Changes
    ensures { result ≡ changes_of attributes.now }
{
    Changes {
        owner: attributes.uid,
        group: attributes.gid,
        mode: mode_of(attributes.mode),
        atime: new_time(attributes.atime),
        mtime: new_time(attributes.mtime),
    }
}

/// The guard asks for another ctime.
fn differs(guard: Option<Time3>, ctime: Tick) -> bool
    ensures { result ≡ differs (option_map tick_of guard) ctime }
{
    match guard {
        None => false,
        Some(time) => !(time.seconds == ctime.boot && time.nanos == ctime.count),
    }
}

/// Why a SETATTR of a file is refused, the first reason in the order of the refusals.
fn refusal(
    head: &ServerBase,
    file: &DataFile,
    args: &SetAttrArgs<'_>,
    cred: &AuthSys<'_>,
) -> Option<Stat3>
    ensures exact { result ≡ option_map stat_of (set_refusal (server_of head.now []) file.now (caller cred.now) (not (is_some args.now.attributes.size)) (option_map tick_of args.now.guard)) }
    ensures status { IfSome result Refuses }
{
    if cred.uid != 0 {
        return Some(Stat3::Acces);
    }
    if args.attributes.size.is_some() {
        return Some(Stat3::Inval);
    }
    if differs(args.guard, file.times().ctime) {
        return Some(Stat3::NotSync);
    }
    tick_refusal(head.clock)
}

/// A time that is set at the tick.
fn time_set(time: NewTime, tick: Tick, old: Tick) -> Time3
    ensures { result ≡ time_of (time_set time tick old) }
{
    match time {
        NewTime::Keep => time_of(old),
        NewTime::Now => time_of(tick),
        NewTime::At(other) => time_of(other),
    }
}

/// A file's attributes after a SETATTR that is done.
fn attributes_set(fileid: u64, file: &DataFile, tick: Tick, changes: &Changes) -> Fattr3
    ensures { result ≡ file_attributes fileid (set file.now tick changes.now) }
{
    let before = file_attributes(fileid, file);
    let times = file.times();
    Fattr3 {
        mode: changes.mode.unwrap_or(before.mode),
        uid: changes.owner.unwrap_or(before.uid),
        gid: changes.group.unwrap_or(before.gid),
        atime: time_set(changes.atime, tick, times.atime),
        mtime: time_set(changes.mtime, tick, times.mtime),
        ctime: time_of(tick),
        ..before
    }
}

/// The plan of a SETATTR that is done.
fn done<'s, 'c>(head: &ServerBase, index: usize, file: &DataFile, changes: Changes) -> Plan<'s, 'c>
    requires ticks { head.now.clock.count < 2 ^ 32 - 1 }
    requires index { index + 2 < 2 ^ 64 }
    ensures { plain_plan result ≡ set_done (server_of head.now []) index file.now changes }
{
    let fileid = index as u64 + 2;
    let before = file_attributes(fileid, file);
    let after = attributes_set(fileid, file, head.clock.next(), &changes);
    let reply = StoredReply::SetAttr(SetAttrReply::Done(wcc_between(&before, after)));
    Plan {
        response: Response::new(reply),
        effect: Effect::Sets { index, changes },
    }
}

/// The plan of a SETATTR on a file.
fn on_file<'s, 'c>(
    head: &ServerBase,
    files: &[DataFile],
    index: usize,
    args: &SetAttrArgs<'_>,
    cred: &AuthSys<'_>,
) -> Plan<'s, 'c>
    requires server { IsServer head.now files.now }
    requires within { index < length files.now }
    ensures plan { IsPlanOn files.now index (λ f. set_unless (server_of head.now files.now) index f (changes_of args.now.attributes) (set_refusal (server_of head.now files.now) f (caller cred.now) (not (is_some args.now.attributes.size)) (option_map tick_of args.now.guard))) result }
    ensures ready { IsReady head.now files.now (plain_effect result.effect) }
{
    let file = &files[index];
    if let Some(status) = refusal(head, file, args, cred) {
        let same = wcc_same(Some(file_attributes(index as u64 + 2, file)));
        return reply_alone(StoredReply::SetAttr(SetAttrReply::Refused(status, same)));
    }
    done(head, index, file, changes_of(&args.attributes))
}

/// The plan of a SETATTR.
pub fn set_plan<'s, 'c>(
    head: &ServerBase,
    files: &[DataFile],
    args: &SetAttrArgs<'_>,
    cred: &AuthSys<'_>,
) -> Plan<'s, 'c>
    requires { IsServer head.now files.now }
    ensures plan { plain_plan result ≡ set_plan (server_of head.now files.now) (object_of files.now args.now.file.now) args.now.attributes args.now.guard (caller cred.now) }
    ensures ready { IsReady head.now files.now (plain_effect result.effect) }
{
    match place_of(files, args.file) {
        Place::Missing(status) => {
            reply_alone(StoredReply::SetAttr(SetAttrReply::Refused(status, wcc_same(None))))
        }
        Place::Root => {
            let same = wcc_same(Some(root_attributes(head.root)));
            reply_alone(StoredReply::SetAttr(SetAttrReply::Refused(Stat3::Inval, same)))
        }
        Place::File(index) => on_file(head, files, index, args, cred),
    }
}
