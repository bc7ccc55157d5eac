//! BIND_CONN_TO_SESSION (RFC 8881, section 18.34).

ghost use Rattle.std.specs.Prelude.{◌≡◌, false};
ghost use Rattle.std.proofs.Common.{inl};
ghost use Rattle.ff_xdr.specs.Arms.{arm};
ghost use Rattle.ff_xdr.specs.Form.{Fits};
ghost use Rattle.nfs4_compound.specs.Results.{resop4, op_res_value};
ghost use Rattle.cluster_model.specs.declared.outbox.Outbox.{Outbox};
ghost use Rattle.nfs4_session_ops.specs.BindConn.{bind_conn4_value};
ghost use Rattle.nfs4_session_ops.specs.Directions.{from_client4, from_client4_number, from_server4, from_server4_number};
ghost use Rattle.mds_rule.specs.SessionOps.{direction_given, runs_bind};
ghost use Rattle.compound_run.specs.CompoundRuns.{HasRoomForResults, HasOperated, AddsResult};

use compound_run::{OpEnd, Run};
use ff_xdr::NoMemory;
use mds_state::State;
use nfs4_compound::OpRes;
use nfs4_compound::nfs4_session_ops::{BindConnArgs, BindConnOk, FromClient, FromServer};
use nfs4_types::{OpResult, SessionId, Stat4};

/// The direction that is given for what was asked: both where both may be.
fn direction_given(asked: FromClient) -> FromServer
    ensures value { from_server4_number result ≡ direction_given (from_client4_number asked) }
    ensures fits { Fits from_server4 (from_server4_number result) }
{
    match asked {
        FromClient::Fore => FromServer::Fore,
        FromClient::Back => FromServer::Back,
        FromClient::ForeOrBoth | FromClient::BackOrBoth => FromServer::Both,
    }
}

/// The result for this session.
fn bind_result(session: SessionId, asked: FromClient) -> OpRes<'static>
    ensures value { op_res_value result ≡ arm 41 resop4 (inl (session.0, (direction_given (from_client4_number asked), false))) }
    ensures fits { Fits resop4 (op_res_value result) }
{
    OpRes::BindConn(OpResult::Done(BindConnOk {
        session,
        direction: direction_given(asked),
        rdma: false,
    }))
}

/// BIND_CONN_TO_SESSION: the session's callbacks go to the node that asks. Takes memory.
pub fn bind_conn_to_session(
    state: &mut State,
    run: &mut Run<'_>,
    args: &BindConnArgs,
) -> Result<OpEnd, NoMemory>
    requires { HasRoomForResults run.old }
    ensures op { (out : Outbox) → HasOperated (runs_bind state.old run.old (bind_conn4_value from_client4 from_client4_number args.now)) out result state.new run.new out }
    ensures on { AddsResult run.old result run.new }
{
    if state.sessions.bind(args.session, run.so_far.node).is_err() {
        return run.refuse(41, Stat4::BadSession);
    }
    run.give(&bind_result(args.session, args.direction))
}
