//! The order in which a data server refuses records (RFC 5531, section 9, and RFC 1813).

ghost use Rattle.std.specs.Prelude.{◌≡◌, [], IsTrue};
ghost use Rattle.ff_xdr.specs.Form.{has_arm};
ghost use Rattle.ff_xdr.specs.Reading.{reading, whole};
ghost use Rattle.rpc_record.specs.Rpc.{authsys_parms, plain_credential};
ghost use Rattle.rpc_record.specs.Calls.{rpc_call};
ghost use Rattle.rpc_record.specs.Replies.{reply_stat, reply_results, rpc_reply, ReplyFits, HasVerifier};
ghost use Rattle.nfs3_wire.specs.Calls.{calls};
ghost use Rattle.ds_files.specs.Receive.{Refused, received, dispatched, authenticated, asked, nobody, replies_with};
ghost use Rattle.ds_files.specs.Records.{plain_received, ReceivedFits, FindsCredential};

use crate::received::Received;
use ff_xdr::{Items, Wire, XdrError};
use nfs3_wire::{is_built, read_call};
use rpc_record::{
    AUTH_NONE, AUTH_SYS, Auth, AuthSys, Call, CallFault, NFS_PROGRAM, RPC_VERSION, Reply, ReplyBody,
};

/// The program's version.
pub const NFS_VERSION: u32 = 3;

/// The body of the credential is not in its form, `AUTH_BADCRED`.
pub const AUTH_BADCRED: u32 = 1;

/// The flavor says too little, `AUTH_TOOWEAK`.
pub const AUTH_TOOWEAK: u32 = 5;

/// The user and the group of a call that names no caller.
pub const NOBODY: u32 = 65_534;

/// A reply with no verifier.
pub fn replies_with<'a>(xid: u32, body: ReplyBody<'a>) -> Reply<'a>
    ensures { rpc_reply result ≡ replies_with xid (reply_stat body.entry) (reply_results body.entry) }
{
    let verf = Auth {
        flavor: AUTH_NONE,
        body: &[],
    };
    Reply { xid, verf, body }
}

/// The refusal of a record.
fn refuses<'a>(xid: u32, body: ReplyBody<'a>) -> Received<'a>
    ensures same { plain_received result ≡ Refused (replies_with xid (reply_stat body.entry) (reply_results body.entry)) }
    ensures fits { ReceivedFits result }
{
    Received::Refused(replies_with(xid, body))
}

/// The credential of a call that names no caller.
fn nobody() -> AuthSys<'static>
    ensures { plain_credential result ≡ nobody }
{
    AuthSys {
        stamp: 0,
        machine: &[],
        uid: NOBODY,
        gid: NOBODY,
        gids: Items::made(&[]),
    }
}

/// The credential that a body spells, all its bytes.
fn credential(body: &[u8]) -> Result<AuthSys<'_>, XdrError>
    ensures { FindsCredential result (whole body.now (reading authsys_parms body.now 0)) }
{
    AuthSys::from_bytes(body)
}

/// A call whose program, version and procedure are here, by a credential.
#[tactic(auto, using(crate::proofs::CallsAgain::call_again))]
fn asked<'a>(call: &Call<'a>, cred: AuthSys<'a>) -> Received<'a>
    requires { IsTrue (has_arm call.now.procedure calls) }
    ensures same { plain_received result ≡ asked (rpc_call call.now) (plain_credential cred.entry) }
    ensures fits { ReceivedFits result }
{
    match read_call(call.procedure, call.args) {
        Ok(args) => Received::Asked {
            xid: call.xid,
            call: args,
            cred,
        },
        Err(_) => refuses(call.xid, ReplyBody::GarbageArgs),
    }
}

/// A call whose program, version and procedure are here.
fn authenticated<'a>(call: &Call<'a>) -> Received<'a>
    requires { IsTrue (has_arm call.now.procedure calls) }
    ensures same { plain_received result ≡ authenticated (rpc_call call.now) }
    ensures fits { ReceivedFits result }
{
    if call.procedure == 0 {
        return asked(call, nobody());
    }
    if call.cred.flavor != AUTH_SYS {
        return refuses(call.xid, ReplyBody::AuthError(AUTH_TOOWEAK));
    }
    match credential(call.cred.body) {
        Ok(cred) => asked(call, cred),
        Err(_) => refuses(call.xid, ReplyBody::AuthError(AUTH_BADCRED)),
    }
}

/// A call.
fn dispatched<'a>(call: &Call<'a>) -> Received<'a>
    ensures same { plain_received result ≡ dispatched (rpc_call call.now) }
    ensures fits { ReceivedFits result }
{
    if call.program != NFS_PROGRAM {
        return refuses(call.xid, ReplyBody::ProgUnavail);
    }
    if call.version != NFS_VERSION {
        let body = ReplyBody::ProgMismatch {
            low: NFS_VERSION,
            high: NFS_VERSION,
        };
        return refuses(call.xid, body);
    }
    if !is_built(call.procedure) {
        return refuses(call.xid, ReplyBody::ProcUnavail);
    }
    authenticated(call)
}

/// What a record is.
pub fn receive(message: &[u8]) -> Received<'_>
    ensures same { plain_received result ≡ received message.now }
    ensures fits { ReceivedFits result }
{
    match Call::read(message) {
        Ok(call) => dispatched(&call),
        Err(CallFault::NotACall) => Received::Silent,
        Err(CallFault::RpcVersion { xid }) => {
            let body = ReplyBody::RpcMismatch {
                low: RPC_VERSION,
                high: RPC_VERSION,
            };
            refuses(xid, body)
        }
        Err(CallFault::Bad { xid, .. }) => refuses(xid, ReplyBody::GarbageArgs),
    }
}
