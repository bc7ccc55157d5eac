//! Callbacks, as records.

ghost use Rattle.std.specs.Prelude.{◌≡◌, ◌≤◌, ◌<◌, ◌^◌, [], length, Ok, IfOk};
ghost use Rattle.ff_xdr.specs.Form.{spelling};
ghost use Rattle.rpc_record.specs.Calls.{rpc_call, call_at};
ghost use Rattle.rpc_record.specs.Replies.{reply_stat, reply_results, reply_bytes, success};
ghost use Rattle.nfs4_types.specs.Status.{stat4_number};
ghost use Rattle.nfs4_compound.specs.Compounds.{cb_compound_at, cb_compound4_res};
ghost use Rattle.nfs4_compound.specs.Operations.{rest_of_stop};
ghost use Rattle.client_callbacks.specs.Callbacks.{given, leaves, cb_results, cb_walked, cb_compound_answer, cb_null_answer, cb_procedure_answer, cb_call_answer, callback_of};
ghost use Rattle.client_callbacks.specs.CallbackSteps.{bare_reply, HasAnswered, HasCalledBack};

use crate::cb_ops::{CbResults, do_callbacks};
use client_state::State;
use ff_xdr::{Data, NoMemory, Out};
use nfs4_compound::CbCompound;
use nfs4_types::Stat4;
use rpc_record::{AUTH_NONE, Auth, Call, CallFault, RPC_VERSION, Reply, ReplyBody};
use std::alloc::Global;

/// The callback program of this client's CREATE_SESSION (RFC 8881, section 20).
pub const PROGRAM: u32 = 1_073_741_824;

/// The program's version.
pub const VERSION: u32 = 1;

/// CB_NULL (RFC 8881, section 20.1).
pub const NULL: u32 = 0;

/// CB_COMPOUND (RFC 8881, section 20.2).
pub const COMPOUND: u32 = 1;

/// The minor version.
pub const MINOR_VERSION: u32 = 1;

/// The most operations of a callback compound.
pub const MAX_OPS: u32 = 16;

/// The record of a reply without a verifier.
fn spell_reply(alloc: Global, xid: u32, body: ReplyBody<'_>) -> Result<Data, NoMemory>
    ensures { IfOk result (λ bytes. bytes ≡ reply_bytes (bare_reply xid (reply_stat body.entry) (reply_results body.entry))) }
{
    let verf = Auth {
        flavor: AUTH_NONE,
        body: &[],
    };
    let mut out = Out::new(alloc);
    Reply { xid, verf, body }.write(&mut out)?;
    Ok(Data::from_vec(out.into_bytes()))
}

/// The record of the result of a callback compound.
fn spell_results(
    alloc: Global,
    xid: u32,
    status: Stat4,
    tag: &str,
    results: &CbResults,
) -> Result<Data, NoMemory>
    requires tag { length tag.now ≤ 1024 }
    requires count { length results.now < 2 ^ 32 }
    ensures { IfOk result (λ bytes. bytes ≡ reply_bytes (bare_reply xid success (spelling cb_compound4_res (stat4_number status, (tag.now, results.now))))) }
{
    let mut out = Out::new(alloc);
    results.put(status, tag, &mut out)?;
    let bytes = out.into_bytes();
    spell_reply(alloc, xid, ReplyBody::Success(&bytes))
}

/// The operations are done, and their results answered; bytes behind the last are no arguments.
fn answer_ops(client: &mut State, xid: u32, compound: &CbCompound<'_>) -> Result<Data, NoMemory>
    requires tag { length compound.now.tag ≤ 1024 }
    requires few { length compound.now.ops.values ≤ 16 }
    ensures { IfOk result (λ reply. HasAnswered xid (cb_walked compound.now (rest_of_stop compound.now.ops.stop) client.old) reply client.new) }
{
    if compound.rest().is_some() {
        return spell_reply(client.alloc, xid, ReplyBody::GarbageArgs);
    }
    let mut results = CbResults::new(client.alloc);
    let status = do_callbacks(client, &mut compound.ops(), &mut results)?;
    spell_results(client.alloc, xid, status, compound.tag(), &results)
}

/// A compound without results, by this status.
fn refuse_compound(
    client: &State,
    xid: u32,
    status: Stat4,
    compound: &CbCompound<'_>,
) -> Result<Data, NoMemory>
    requires { length compound.now.tag ≤ 1024 }
    ensures { IfOk result (λ reply. HasAnswered xid (cb_results compound.now.tag (leaves (given status []) client.now)) reply client.now) }
{
    let results = CbResults::new(client.alloc);
    spell_results(client.alloc, xid, status, compound.tag(), &results)
}

/// The minor version is judged first, then how many operations there are: at most 16.
fn answer_counted(client: &mut State, xid: u32, compound: &CbCompound<'_>) -> Result<Data, NoMemory>
    requires tag { length compound.now.tag ≤ 1024 }
    requires few { length compound.now.ops.values ≤ compound.now.count }
    ensures { IfOk result (λ reply. HasAnswered xid (cb_compound_answer (Ok compound.now) client.old) reply client.new) }
{
    if compound.minorversion() != MINOR_VERSION {
        return refuse_compound(client, xid, Stat4::MinorVersMismatch, compound);
    }
    if compound.count() > MAX_OPS {
        return refuse_compound(client, xid, Stat4::TooManyOps, compound);
    }
    answer_ops(client, xid, compound)
}

/// CB_COMPOUND (RFC 8881, section 20.2).
fn answer_compound(client: &mut State, xid: u32, args: &[u8]) -> Result<Data, NoMemory>
    ensures { IfOk result (λ reply. HasAnswered xid (cb_compound_answer (cb_compound_at args.now) client.old) reply client.new) }
{
    match CbCompound::read(args) {
        Ok(compound) => answer_counted(client, xid, &compound),
        Err(_) => spell_reply(client.alloc, xid, ReplyBody::GarbageArgs),
    }
}

/// CB_NULL has no arguments (RFC 8881, section 20.1).
fn answer_null(client: &State, xid: u32, args: &[u8]) -> Result<Data, NoMemory>
    ensures { IfOk result (λ reply. HasAnswered xid (cb_null_answer args.now client.now) reply client.now) }
{
    if args.is_empty() {
        return spell_reply(client.alloc, xid, ReplyBody::Success(&[]));
    }
    spell_reply(client.alloc, xid, ReplyBody::GarbageArgs)
}

/// A call of the callback program.
fn answer_procedure(client: &mut State, call: &Call<'_>) -> Result<Data, NoMemory>
    ensures { IfOk result (λ reply. HasAnswered call.now.xid (cb_procedure_answer (rpc_call call.now) client.old) reply client.new) }
{
    match call.procedure {
        NULL => answer_null(client, call.xid, call.args),
        COMPOUND => answer_compound(client, call.xid, call.args),
        _ => spell_reply(client.alloc, call.xid, ReplyBody::ProcUnavail),
    }
}

/// A call: the callback program is here, in version 1.
fn answer_call(client: &mut State, call: &Call<'_>) -> Result<Data, NoMemory>
    ensures { IfOk result (λ reply. HasAnswered call.now.xid (cb_call_answer (rpc_call call.now) client.old) reply client.new) }
{
    if call.program != PROGRAM {
        return spell_reply(client.alloc, call.xid, ReplyBody::ProgUnavail);
    }
    if call.version != VERSION {
        let body = ReplyBody::ProgMismatch {
            low: VERSION,
            high: VERSION,
        };
        return spell_reply(client.alloc, call.xid, body);
    }
    answer_procedure(client, call)
}

/// The reply to a record that is a call, and what the client is then. `None`: the record is no call.
pub fn take_callback(client: &mut State, message: &[u8]) -> Result<Option<Data>, NoMemory>
    ensures { IfOk result (λ reply. HasCalledBack (callback_of (call_at message.now) client.old) reply client.new client.old) }
{
    let reply = match Call::read(message) {
        Ok(call) => answer_call(client, &call)?,
        Err(CallFault::NotACall) => return Ok(None),
        Err(CallFault::RpcVersion { xid }) => {
            let body = ReplyBody::RpcMismatch {
                low: RPC_VERSION,
                high: RPC_VERSION,
            };
            spell_reply(client.alloc, xid, body)?
        }
        Err(CallFault::Bad { xid, .. }) => spell_reply(client.alloc, xid, ReplyBody::GarbageArgs)?,
    };
    Ok(Some(reply))
}
