//! The procedures that a data server has (RFC 1813, section 3.3).

ghost use Rattle.std.specs.Prelude.{◌≡◌};
ghost use Rattle.nfs3_wire.specs.Calls.{plain_call};
ghost use Rattle.ds_procedures.specs.Objects.{caller};
ghost use Rattle.ds_procedures.specs.Steps.{plan_of};
ghost use Rattle.ds_procedures.specs.ServerBases.{IsServer, server_of};
ghost use Rattle.ds_procedures.specs.CodePlans.{plain_plan, plain_effect, IsReady};

use crate::commit::commit_plan;
use crate::create::create_plan;
use crate::fsinfo::fsinfo_reply;
use crate::getattr::getattr_reply;
use crate::lookup::lookup_reply;
use crate::plan::{Plan, reply_alone};
use crate::read::read_plan;
use crate::server_base::ServerBase;
use crate::setattr::set_plan;
use crate::stored::StoredReply;
use crate::write::write_plan;
use data_file::DataFile;
use nfs3_wire::Call3;
use rpc_record::AuthSys;
use std::alloc::Global;

/// What a call by a credential comes to. Takes no memory.
pub fn plan_of<'s, 'c>(
    alloc: Global,
    head: &ServerBase,
    files: &'s [DataFile],
    call: &Call3<'c>,
    cred: &AuthSys<'_>,
) -> Plan<'s, 'c>
    requires { IsServer head.now files.now }
    ensures plan { plain_plan result ≡ plan_of (server_of head.now files.now) (plain_call call.now) (caller cred.now) }
    ensures ready { IsReady head.now files.now (plain_effect result.effect) }
{
    match call {
        Call3::Null => reply_alone(StoredReply::Null),
        Call3::GetAttr(args) => reply_alone(getattr_reply(head, files, args)),
        Call3::SetAttr(args) => set_plan(head, files, args, cred),
        Call3::Lookup(args) => reply_alone(lookup_reply(head, files, args)),
        Call3::Read(args) => read_plan(head, files, args, cred),
        Call3::Write(args) => write_plan(head, files, args, cred),
        Call3::Create(args) => create_plan(alloc, head, files, args, cred),
        Call3::FsInfo(args) => reply_alone(fsinfo_reply(head, files, args)),
        Call3::Commit(args) => commit_plan(head, files, args, cred),
    }
}
