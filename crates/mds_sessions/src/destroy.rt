//! DESTROY_SESSION and DESTROY_CLIENTID (RFC 8881, sections 18.37 and 18.50).

ghost use Rattle.std.specs.Prelude.{◌≡◌};
ghost use Rattle.cluster_model.specs.declared.outbox.Outbox.{Outbox as Box};
ghost use Rattle.mds_rule.specs.SessionOps.{runs_destroy_session, runs_destroy_client};
ghost use Rattle.compound_run.specs.CompoundRuns.{HasRoomForResults, HasOperated, AddsResult};

use cluster_model::{EndCause, Outbox};
use compound_run::{OpEnd, Run};
use ff_xdr::NoMemory;
use mds_state::{State, end_client};
use nfs4_compound::OpRes;
use nfs4_types::{OpResult, SessionId, Stat4};

/// DESTROY_SESSION: the session is no more. Takes memory.
pub fn destroy_session(
    state: &mut State,
    run: &mut Run<'_>,
    session: SessionId,
) -> Result<OpEnd, NoMemory>
    requires { HasRoomForResults run.old }
    ensures op { (out : Box) → HasOperated (runs_destroy_session state.old run.old session.0) out result state.new run.new out }
    ensures on { AddsResult run.old result run.new }
{
    if state.sessions.destroy_session(session).is_err() {
        return run.refuse(44, Stat4::BadSession);
    }
    run.give(&OpRes::DestroySession(OpResult::Done(())))
}

/// DESTROY_CLIENTID: the client is gone, where none of its sessions is in use. Takes memory.
pub fn destroy_client(
    state: &mut State,
    run: &mut Run<'_>,
    client: u64,
    out: &mut Outbox,
) -> Result<OpEnd, NoMemory>
    requires { HasRoomForResults run.old }
    ensures op { HasOperated (runs_destroy_client state.old run.old client) out.old result state.new run.new out.new }
    ensures on { AddsResult run.old result run.new }
{
    match state.sessions.destroy_client(client) {
        Ok(()) => {
            end_client(state, client, EndCause::ClientGone, out)?;
            run.give(&OpRes::DestroyClientId(OpResult::Done(())))
        }
        Err(status) => run.refuse(57, status),
    }
}
