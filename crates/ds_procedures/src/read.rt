//! READ (RFC 1813, section 3.3.6).

ghost use Rattle.std.specs.Prelude.{◌≡◌, ◌+◌, ◌<◌, ◌^◌, length};
ghost use Rattle.cluster_model.specs.Server.{read_refusal, NoEffect};
ghost use Rattle.ds_procedures.specs.Objects.{object_of, caller};
ghost use Rattle.ds_procedures.specs.Read.{read_done, read_unless, read_reply};
ghost use Rattle.ds_procedures.specs.Plans.{reply_alone};
ghost use Rattle.ds_procedures.specs.ServerBases.{server_of};
ghost use Rattle.ds_procedures.specs.CodePlans.{plain_plan, plain_effect, IsPlanOn};

use crate::access::may_read;
use crate::answer::Response;
use crate::attributes::{file_attributes, root_attributes};
use crate::object::Place;
use crate::objects::place_of;
use crate::plan::{Effect, Plan, reply_alone};
use crate::server_base::ServerBase;
use crate::stored::StoredReply;
use data_file::DataFile;
use nfs3_wire::{MAX_DATA, ReadArgs, Stat3};
use rpc_record::AuthSys;

/// The plan of a READ that is done.
fn done<'s, 'c>(index: usize, file: &'s DataFile, args: &ReadArgs<'_>) -> Plan<'s, 'c>
    requires { index + 2 < 2 ^ 64 }
    ensures plan { plain_plan result ≡ reply_alone (read_done index file.now args.now.offset args.now.count) }
    ensures nothing { plain_effect result.effect ≡ NoEffect }
{
    let size = file.size();
    let part = file.read(args.offset, args.count.min(MAX_DATA));
    let count = part.len();
    let reply = StoredReply::ReadDone {
        attributes: Some(file_attributes(index as u64 + 2, file)),
        count: count as u32,
        eof: args.offset >= size || size - args.offset <= count as u64,
    };
    Plan {
        response: Response::of_read(reply, part),
        effect: Effect::Nothing,
    }
}

/// The plan of a READ on a file.
fn on_file<'s, 'c>(
    files: &'s [DataFile],
    index: usize,
    args: &ReadArgs<'_>,
    cred: &AuthSys<'_>,
) -> Plan<'s, 'c>
    requires { index < length files.now }
    ensures plan { IsPlanOn files.now index (λ f. reply_alone (read_unless index f args.now.offset args.now.count (read_refusal f (caller cred.now)))) result }
    ensures nothing { plain_effect result.effect ≡ NoEffect }
{
    let file = &files[index];
    if may_read(file, cred) {
        return done(index, file, args);
    }
    reply_alone(StoredReply::ReadRefused {
        status: Stat3::Acces,
        attributes: Some(file_attributes(index as u64 + 2, file)),
    })
}

/// The plan of a READ.
pub fn read_plan<'s, 'c>(
    head: &ServerBase,
    files: &'s [DataFile],
    args: &ReadArgs<'_>,
    cred: &AuthSys<'_>,
) -> Plan<'s, 'c>
    ensures plan { plain_plan result ≡ reply_alone (read_reply (server_of head.now files.now) (object_of files.now args.now.file.now) args.now.offset args.now.count (caller cred.now)) }
    ensures nothing { plain_effect result.effect ≡ NoEffect }
{
    match place_of(files, args.file) {
        Place::Missing(status) => reply_alone(StoredReply::ReadRefused {
            status,
            attributes: None,
        }),
        Place::Root => reply_alone(StoredReply::ReadRefused {
            status: Stat3::Inval,
            attributes: Some(root_attributes(head.root)),
        }),
        Place::File(index) => on_file(files, index, args, cred),
    }
}
