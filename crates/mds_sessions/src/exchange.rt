//! EXCHANGE_ID (RFC 8881, section 18.35).

ghost use Rattle.std.specs.Prelude.{◌≡◌};
ghost use Rattle.ff_xdr.specs.Form.{Fits};
ghost use Rattle.cluster_model.specs.declared.outbox.Outbox.{Outbox};
ghost use Rattle.nfs4_compound.specs.Results.{resop4, op_res_value};
ghost use Rattle.nfs4_session_ops.specs.ExchangeId.{exchange_id4_args_value};
ghost use Rattle.mds_rule.specs.SessionOps.{exchange_flags, exchange_result, runs_exchange};
ghost use Rattle.compound_run.specs.CompoundRuns.{HasRoomForResults, HasOperated, AddsResult};

use compound_run::{OpEnd, Run};
use ff_xdr::NoMemory;
use mds_state::State;
use nfs4_compound::OpRes;
use nfs4_compound::nfs4_session_ops::{ExchangeIdArgs, ExchangeIdOk};
use nfs4_session::{Exchanged, IdFault};
use nfs4_types::{ArmZero, AtMostOne, OpResult, Owner4, Stat4};

/// EXCHGID4_FLAG_USE_PNFS_MDS.
pub const USE_PNFS_MDS: u32 = 0x0002_0000;

/// EXCHGID4_FLAG_CONFIRMED_R.
pub const CONFIRMED_R: u32 = 0x8000_0000;

/// What the server is, and whether the client is confirmed.
fn exchange_flags(confirmed: bool) -> u32
    ensures { result ≡ exchange_flags confirmed }
{
    if confirmed {
        return USE_PNFS_MDS + CONFIRMED_R;
    }
    USE_PNFS_MDS
}

/// The result with this record.
fn exchange_result(given: Exchanged) -> OpRes<'static>
    ensures value { op_res_value result ≡ exchange_result given }
    ensures fits { Fits resop4 (op_res_value result) }
{
    let none = Owner4 { bytes: &[] };
    OpRes::ExchangeId(OpResult::Done(ExchangeIdOk {
        clientid: given.client,
        sequence: given.sequence,
        flags: exchange_flags(given.confirmed),
        protect: ArmZero { body: () },
        minor_id: 0,
        major_id: none,
        scope: none,
        impl_id: AtMostOne { value: None },
    }))
}

/// EXCHANGE_ID: the client's record, which may be a new one; it is `now`, in seconds. Takes memory.
#[tactic(auto, unfolding(ff_xdr::specs::Form::long))]
pub fn exchange_id(
    state: &mut State,
    run: &mut Run<'_>,
    args: &ExchangeIdArgs<'_>,
    now: u64,
) -> Result<OpEnd, NoMemory>
    requires { HasRoomForResults run.old }
    ensures op { (out : Outbox) → HasOperated (runs_exchange state.old run.old now (exchange_id4_args_value args.now)) out result state.new run.new out }
    ensures on { AddsResult run.old result run.new }
{
    let verifier = args.verifier.to_be_bytes();
    let given = match state.sessions.exchange_id(verifier, args.owner.bytes, now) {
        Ok(given) => given,
        Err(IdFault::Full) => return run.refuse(42, Stat4::ServerFault),
        Err(IdFault::NoMemory) => return Err(NoMemory),
    };
    run.give(&exchange_result(given))
}
