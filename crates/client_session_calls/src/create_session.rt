//! CREATE_SESSION (RFC 8881, section 18.36).

ghost use Rattle.std.specs.Prelude.{◌≡◌, [], ◌∷◌};
ghost use Rattle.ff_xdr.specs.Calls.{Puts};
ghost use Rattle.ff_xdr.specs.Items.{contents};
ghost use Rattle.nfs4_types.specs.Channels.{channel_attrs4_value};
ghost use Rattle.nfs4_compound.specs.Results.{resop4, op_res_value};
ghost use Rattle.client_compounds.specs.MdsArguments.{compound_args};
ghost use Rattle.client_session_calls.specs.SessionOps.{create_session_op, fore_channel, back_channel};
ghost use Rattle.client_session_calls.specs.SessionResults.{create_session_results};

use client_compounds::{CompoundResults, Few, few_of, put_ops};
use ff_xdr::{Array, Items, NoMemory, Out};
use nfs4_compound::{Op, OpRes};
use nfs4_session_ops::{CallbackSec, CreateSessionArgs};
use nfs4_types::{ChannelAttrs, OpResult, SessionId};

/// The session has a back channel, CREATE_SESSION4_FLAG_CONN_BACK_CHAN.
pub const WITH_BACK_CHANNEL: u32 = 2;

/// The program of the client's callbacks, in the transient range (RFC 5531, section 8.3).
pub const CALLBACK_PROGRAM: u32 = 0x4000_0000;

/// The channel of requests that a client asks for.
const FORE: ChannelAttrs = ChannelAttrs {
    headerpadsize: 0,
    maxrequestsize: 1_179_648,
    maxresponsesize: 1_179_648,
    maxresponsesize_cached: 32_768,
    maxoperations: 16,
    maxrequests: 8,
    rdma_ird: None,
};

/// The channel of callbacks that a client asks for.
const BACK: ChannelAttrs = ChannelAttrs {
    headerpadsize: 0,
    maxrequestsize: 4_096,
    maxresponsesize: 4_096,
    maxresponsesize_cached: 0,
    maxoperations: 2,
    maxrequests: 1,
    rdma_ird: None,
};

/// Appends the arguments of the compound, or nothing.
pub fn put_create_session(clientid: u64, sequence: u32, out: &mut Out) -> Result<(), NoMemory>
    ensures { Puts out.old result out.new (compound_args (create_session_op clientid sequence ∷ [])) }
{
    let flavors = [CallbackSec::None];
    let security = Items::made(&flavors);
    let args = CreateSessionArgs {
        clientid,
        sequence,
        flags: WITH_BACK_CHANNEL,
        fore: FORE,
        back: BACK,
        cb_program: CALLBACK_PROGRAM,
        security: Array { items: security },
    };
    put_ops(&[Op::CreateSession(args)], out)?;
    Ok(())
}

/// The session, where the results are those of the call and OK.
pub fn create_session_results(results: CompoundResults<'_>) -> Option<SessionId>
    ensures { result ≡ create_session_results (contents resop4 op_res_value results.entry.place) }
{
    match few_of(results) {
        Few::One(OpRes::CreateSession(OpResult::Done(done))) => Some(done.session),
        _ => None,
    }
}
