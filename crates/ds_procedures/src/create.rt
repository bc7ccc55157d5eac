//! CREATE (RFC 1813, section 3.3.8).

ghost use Rattle.std.specs.Prelude.{◌≡◌, ◌+◌, ◌-◌, ◌<◌, ◌^◌, ◌≤◌, length, IfSome};
ghost use Rattle.cluster_model.specs.Server.{index_of, root_after, max_ticks};
ghost use Rattle.ds_procedures.specs.Objects.{object_of, caller};
ghost use Rattle.ds_procedures.specs.Create.{has_size, made_by, named_by, owner_of, group_of, file_mode_of, create_done, create_in, create_plan};
ghost use Rattle.ds_procedures.specs.ServerBases.{IsServer, server_of};
ghost use Rattle.ds_procedures.specs.CodePlans.{plain_plan, plain_effect, IsReady, create_case_of, plain_create_case, CreateCaseFits};

use crate::access::tick_refusal;
use crate::answer::Response;
use crate::attributes::{file_attributes, root_attributes, wcc_between, wcc_same};
use crate::lookup::MAX_NAME;
use crate::object::Place;
use crate::objects::{attributes_at, attributes_of_file, handle_of, place_of};
use crate::plan::{Effect, Plan, reply_alone};
use crate::server_base::ServerBase;
use crate::setattr::mode_of;
use crate::stored::StoredReply;
use cluster_model::{FILE_MODE, Tick, Times};
use data_file::DataFile;
use nfs3_wire::{CreateArgs, CreateHow, Sattr3, Stat3};
use rpc_record::AuthSys;
use std::alloc::Global;

/// What comes of a CREATE in the root.
#[derive(Clone, Copy)]
pub enum CreateCase {
    Refuses(Stat3),
    /// The file at this index has the name.
    IsThere(usize),
    Makes(Sattr3),
}

/// A size is named, and it is not 0.
fn has_size(size: Option<u64>) -> bool
    ensures { result ≡ has_size size }
{
    match size {
        None => false,
        Some(size) => size != 0,
    }
}

/// The file that has the name, or what is to be made.
fn made_by(head: &ServerBase, name: &[u8], attributes: Sattr3, found: Option<usize>) -> CreateCase
    requires found { found ≡ index_of head.now.names name.now }
    requires index { IfSome found (λ index. index + 2 < 2 ^ 64) }
    requires ticks { head.now.clock.count ≤ max_ticks }
    ensures exact { plain_create_case result ≡ made_by head.now.clock attributes found }
    ensures fits { CreateCaseFits head.now name.now result }
{
    match found {
        Some(index) => CreateCase::IsThere(index),
        None => match tick_refusal(head.clock) {
            Some(status) => CreateCase::Refuses(status),
            None => CreateCase::Makes(attributes),
        },
    }
}

/// What comes of a CREATE that is UNCHECKED or GUARDED.
fn named_by(
    head: &ServerBase,
    name: &[u8],
    guarded: bool,
    attributes: Sattr3,
    found: Option<usize>,
) -> CreateCase
    requires found { found ≡ index_of head.now.names name.now }
    requires index { IfSome found (λ index. index + 2 < 2 ^ 64) }
    requires ticks { head.now.clock.count ≤ max_ticks }
    ensures exact { plain_create_case result ≡ named_by head.now.clock name.now guarded attributes found }
    ensures fits { CreateCaseFits head.now name.now result }
{
    if guarded && found.is_some() {
        return CreateCase::Refuses(Stat3::Exist);
    }
    if name.is_empty() || has_size(attributes.size) {
        return CreateCase::Refuses(Stat3::Inval);
    }
    made_by(head, name, attributes, found)
}

/// What comes of a CREATE in the root, the first reason in the order of the refusals.
fn case_in_root(head: &ServerBase, args: &CreateArgs<'_>, cred: &AuthSys<'_>) -> CreateCase
    requires names { length head.now.names + 2 < 2 ^ 64 }
    requires ticks { head.now.clock.count ≤ max_ticks }
    ensures exact { plain_create_case result ≡ create_case_of head.now args.now cred.now }
    ensures fits { CreateCaseFits head.now args.now.name.now result }
{
    if cred.uid != 0 {
        return CreateCase::Refuses(Stat3::Acces);
    }
    if args.name.len() > MAX_NAME {
        return CreateCase::Refuses(Stat3::NameTooLong);
    }
    let found = head.names.index_of(args.name);
    match args.how {
        CreateHow::Unchecked(attributes) => named_by(head, args.name, false, attributes, found),
        CreateHow::Guarded(attributes) => named_by(head, args.name, true, attributes, found),
        CreateHow::Exclusive(_) => CreateCase::Refuses(Stat3::NotSupp),
    }
}

/// The root's times after a name was made in it.
pub fn root_after(root: Times, tick: Tick) -> Times
    ensures { result ≡ root_after root tick }
{
    Times {
        mtime: tick,
        ctime: tick,
        ..root
    }
}

/// The plan of a CREATE that makes a file.
fn done<'s, 'c>(
    alloc: Global,
    head: &ServerBase,
    files: &[DataFile],
    name: &'c [u8],
    owner: u32,
    group: u32,
    mode: u32,
) -> Plan<'s, 'c>
    requires ticks { head.now.clock.count < 2 ^ 32 - 1 }
    requires index { length files.now + 2 < 2 ^ 64 }
    ensures { plain_plan result ≡ create_done (server_of head.now files.now) name.now owner group mode }
{
    let tick = head.clock.next();
    let index = files.len();
    // no memory is taken: it is made to be looked at
    let file = DataFile::new(alloc, owner, group, mode, tick);
    let before = root_attributes(head.root);
    let after = root_attributes(root_after(head.root, tick));
    let reply = StoredReply::CreateDone {
        file: handle_of(index),
        attributes: Some(file_attributes(index as u64 + 2, &file)),
        wcc: wcc_between(&before, after),
    };
    Plan {
        response: Response::new(reply),
        effect: Effect::Makes {
            name,
            owner,
            group,
            mode,
        },
    }
}

/// The plan of a CREATE in the root.
fn in_root<'s, 'c>(
    alloc: Global,
    head: &ServerBase,
    files: &[DataFile],
    args: &CreateArgs<'c>,
    cred: &AuthSys<'_>,
) -> Plan<'s, 'c>
    requires { IsServer head.now files.now }
    ensures plan { plain_plan result ≡ create_in (server_of head.now files.now) args.now.name.now (caller cred.now) (create_case_of head.now args.now cred.now) }
    ensures ready { IsReady head.now files.now (plain_effect result.effect) }
{
    let same = wcc_same(Some(root_attributes(head.root)));
    match case_in_root(head, args, cred) {
        CreateCase::Refuses(status) => reply_alone(StoredReply::CreateRefused {
            status,
            wcc: same,
        }),
        CreateCase::IsThere(index) => reply_alone(StoredReply::CreateDone {
            file: handle_of(index),
            attributes: attributes_at(files, index),
            wcc: same,
        }),
        CreateCase::Makes(attributes) => {
            let owner = attributes.uid.unwrap_or(cred.uid);
            let group = attributes.gid.unwrap_or(cred.gid);
            let mode = mode_of(attributes.mode).unwrap_or(FILE_MODE);
            done(alloc, head, files, args.name, owner, group, mode)
        }
    }
}

/// The plan of a CREATE.
pub fn create_plan<'s, 'c>(
    alloc: Global,
    head: &ServerBase,
    files: &[DataFile],
    args: &CreateArgs<'c>,
    cred: &AuthSys<'_>,
) -> Plan<'s, 'c>
    requires { IsServer head.now files.now }
    ensures plan { plain_plan result ≡ create_plan (server_of head.now files.now) (object_of files.now args.now.directory.now) args.now.name.now args.now.how (caller cred.now) }
    ensures ready { IsReady head.now files.now (plain_effect result.effect) }
{
    match place_of(files, args.directory) {
        Place::Missing(status) => reply_alone(StoredReply::CreateRefused {
            status,
            wcc: wcc_same(None),
        }),
        Place::File(index) => reply_alone(StoredReply::CreateRefused {
            status: Stat3::NotDir,
            wcc: wcc_same(Some(attributes_of_file(files, index))),
        }),
        Place::Root => in_root(alloc, head, files, args, cred),
    }
}
