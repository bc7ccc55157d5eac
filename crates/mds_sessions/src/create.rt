//! CREATE_SESSION (RFC 8881, section 18.36).

ghost use Rattle.std.specs.Prelude.{◌≡◌, OnOk};
ghost use Rattle.ff_xdr.specs.Form.{Fits};
ghost use Rattle.nfs4_types.specs.Channels.{channel_attrs4, channel_attrs4_value};
ghost use Rattle.nfs4_compound.specs.Results.{resop4, op_res_value};
ghost use Rattle.nfs4_session_ops.specs.CreateSession.{create_session4_args_value};
ghost use Rattle.mds_rule.specs.SessionOps.{fore_channel, back_channel, create_result, gone_with, runs_create};
ghost use Rattle.compound_run.specs.CompoundRuns.{HasRoomForResults, HasOperated, AddsResult, HasMadeStep};

use cluster_model::{EndCause, Outbox};
use compound_run::{OpEnd, Run};
use ff_xdr::NoMemory;
use mds_state::{State, confirm, end_client};
use nfs4_compound::OpRes;
use nfs4_compound::nfs4_session_ops::{CreateSessionArgs, CreateSessionOk};
use nfs4_session::SessionFault;
use nfs4_types::{ChannelAttrs, OpResult, SessionId, Stat4};

/// CREATE_SESSION4_FLAG_CONN_BACK_CHAN.
pub const CONN_BACK_CHAN: u32 = 2;

/// The channel for requests, which has what was asked for, up to what there is.
fn fore_channel(asked: &ChannelAttrs) -> ChannelAttrs
    ensures value { channel_attrs4_value result ≡ fore_channel (channel_attrs4_value asked.now) }
    ensures fits { Fits channel_attrs4 (channel_attrs4_value result) }
{
    ChannelAttrs {
        headerpadsize: 0,
        maxrequestsize: asked.maxrequestsize.min(1_179_648),
        maxresponsesize: asked.maxresponsesize.min(1_179_648),
        maxresponsesize_cached: asked.maxresponsesize_cached.min(32_768),
        maxoperations: asked.maxoperations.min(16),
        maxrequests: asked.maxrequests.min(8),
        rdma_ird: None,
    }
}

/// The channel for callbacks.
fn back_channel(asked: &ChannelAttrs) -> ChannelAttrs
    ensures value { channel_attrs4_value result ≡ back_channel (channel_attrs4_value asked.now) }
    ensures fits { Fits channel_attrs4 (channel_attrs4_value result) }
{
    ChannelAttrs {
        headerpadsize: 0,
        maxrequestsize: asked.maxrequestsize.min(4_096),
        maxresponsesize: asked.maxresponsesize.min(4_096),
        maxresponsesize_cached: 0,
        maxoperations: asked.maxoperations.min(2),
        maxrequests: asked.maxrequests.min(1),
        rdma_ird: None,
    }
}

/// The result with this session.
fn create_result(
    session: SessionId,
    sequence: u32,
    fore: &ChannelAttrs,
    back: &ChannelAttrs,
) -> OpRes<'static>
    ensures value { op_res_value result ≡ create_result session sequence (channel_attrs4_value fore.now) (channel_attrs4_value back.now) }
    ensures fits { Fits resop4 (op_res_value result) }
{
    OpRes::CreateSession(OpResult::Done(CreateSessionOk {
        session,
        sequence,
        flags: CONN_BACK_CHAN,
        fore: fore_channel(fore),
        back: back_channel(back),
    }))
}

/// The client that was there before a restart is gone. Takes memory.
fn end_gone(state: &mut State, gone: Option<u64>, out: &mut Outbox) -> Result<(), NoMemory>
    ensures steps { OnOk result (HasMadeStep (gone_with gone state.old) out.old state.new out.new) }
    ensures silent { OnOk result (out.new.sends.items ≡ out.old.sends.items) }
{
    match gone {
        Some(client) => end_client(state, client, EndCause::ClientGone, out),
        None => Ok(()),
    }
}

/// CREATE_SESSION: a session of the client, on the node that asks; it is `now`, in seconds. Takes memory.
pub fn create_session(
    state: &mut State,
    run: &mut Run<'_>,
    args: &CreateSessionArgs<'_>,
    now: u64,
    out: &mut Outbox,
) -> Result<OpEnd, NoMemory>
    requires { HasRoomForResults run.old }
    ensures op { HasOperated (runs_create state.old run.old now (create_session4_args_value args.now)) out.old result state.new run.new out.new }
    ensures on { AddsResult run.old result run.new }
{
    match state.sessions.create_session(
        args.clientid,
        args.sequence,
        args.flags,
        &args.fore,
        &args.back,
        args.cb_program,
        run.so_far.node,
        now,
    ) {
        Ok(created) => {
            confirm(state, args.clientid, run.so_far.node)?;
            end_gone(state, created.gone, out)?;
            run.give(&create_result(created.session, args.sequence, &args.fore, &args.back))
        }
        Err(SessionFault::StaleClient) => run.refuse(43, Stat4::StaleClientId),
        Err(SessionFault::Misordered) => run.refuse(43, Stat4::SeqMisordered),
        Err(SessionFault::Full) => run.refuse(43, Stat4::ServerFault),
        Err(SessionFault::NoMemory) => Err(NoMemory),
    }
}
