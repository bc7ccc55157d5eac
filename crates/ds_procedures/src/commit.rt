//! COMMIT (RFC 1813, section 3.3.21).

ghost use Rattle.std.specs.Prelude.{◌≡◌, ◌<◌, length};
ghost use Rattle.cluster_model.specs.Server.{commit_refusal};
ghost use Rattle.ds_procedures.specs.Objects.{object_of, caller};
ghost use Rattle.ds_procedures.specs.Commit.{commit_unless, commit_plan};
ghost use Rattle.ds_procedures.specs.ServerBases.{server_of};
ghost use Rattle.ds_procedures.specs.CodePlans.{plain_plan, plain_effect, IsPlanOn, IsReady};

use crate::access::may_write;
use crate::answer::Response;
use crate::attributes::{file_attributes, root_attributes, wcc_between, wcc_same};
use crate::object::Place;
use crate::objects::place_of;
use crate::plan::{Effect, Plan, reply_alone};
use crate::server_base::ServerBase;
use crate::stored::StoredReply;
use data_file::DataFile;
use nfs3_wire::{CommitArgs, CommitOk, CommitReply, Stat3};
use rpc_record::AuthSys;

/// The plan of a COMMIT on a file. What is shown stays, so the attributes are the same before and
/// after.
fn on_file<'s, 'c>(
    head: &ServerBase,
    files: &[DataFile],
    index: usize,
    cred: &AuthSys<'_>,
) -> Plan<'s, 'c>
    requires within { index < length files.now }
    ensures plan { IsPlanOn files.now index (λ f. commit_unless (server_of head.now files.now) index f (commit_refusal f (caller cred.now))) result }
    ensures ready { IsReady head.now files.now (plain_effect result.effect) }
{
    let file = &files[index];
    let attributes = file_attributes(index as u64 + 2, file);
    if !may_write(file, cred) {
        let same = wcc_same(Some(attributes));
        return reply_alone(StoredReply::Commit(CommitReply::Refused(Stat3::Acces, same)));
    }
    let reply = StoredReply::Commit(CommitReply::Done(CommitOk {
        wcc: wcc_between(&attributes, attributes),
        verifier: u64::from(head.clock.boot),
    }));
    Plan {
        response: Response::new(reply),
        effect: Effect::Commits { index },
    }
}

/// The plan of a COMMIT.
pub fn commit_plan<'s, 'c>(
    head: &ServerBase,
    files: &[DataFile],
    args: &CommitArgs<'_>,
    cred: &AuthSys<'_>,
) -> Plan<'s, 'c>
    ensures plan { plain_plan result ≡ commit_plan (server_of head.now files.now) (object_of files.now args.now.file.now) (caller cred.now) }
    ensures ready { IsReady head.now files.now (plain_effect result.effect) }
{
    match place_of(files, args.file) {
        Place::Missing(status) => {
            reply_alone(StoredReply::Commit(CommitReply::Refused(status, wcc_same(None))))
        }
        Place::Root => {
            let same = wcc_same(Some(root_attributes(head.root)));
            reply_alone(StoredReply::Commit(CommitReply::Refused(Stat3::Inval, same)))
        }
        Place::File(index) => on_file(head, files, index, cred),
    }
}
