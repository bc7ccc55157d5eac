//! LAYOUTGET (RFC 8881, section 18.43).

ghost use Rattle.std.specs.Prelude.{◌≡◌, false, IfOk, OnOk};
ghost use Rattle.std.proofs.Common.{inl, inr};
ghost use Rattle.ff_xdr.specs.Arms.{arm};
ghost use Rattle.nfs4_types.specs.declared.status.Stat4.TheVariants.{LayoutTryLater};
ghost use Rattle.nfs4_compound.specs.Results.{resop4};
ghost use Rattle.mds_rule.specs.OpSteps.{with_result};
ghost use Rattle.compound_run.specs.declared.op_end.OpEnd.TheVariants.{Ends};
ghost use Rattle.nfs4_file_ops.specs.LayoutGet.{layoutget4_args_value};
ghost use Rattle.mds_rule.specs.LayoutOps.{later_by, phase_behind, runs_layout_get};
ghost use Rattle.compound_run.specs.CompoundRuns.{HasRoomForResults, HasOperated, AddsResult};

use crate::faults::{layout_fault, size_for};
use crate::grants::grant;
use cluster_model::{Entry, Outbox, Phase};
use compound_run::{OpEnd, Run};
use ff_xdr::NoMemory;
use layout_state::GrantFault;
use mds_names::{current_file, named_in};
use mds_refusals::{LayoutGetFound, try_layout_get};
use mds_state::{State, ask_back};
use nfs4_compound::OpRes;
use nfs4_compound::nfs4_file_ops::{LayoutGetArgs, LayoutGetRes};
use nfs4_types::Stat4;

/// The phase for which the file has to be asked for later.
fn phase_behind(fault: Option<GrantFault>) -> Option<Phase>
    ensures { result ≡ phase_behind fault }
{
    match fault {
        Some(GrantFault::Later(phase)) => Some(phase),
        _ => None,
    }
}

/// LAYOUTTRYLATER, with no word of when. Takes memory.
fn refuse_now(run: &mut Run<'_>) -> Result<OpEnd, NoMemory>
    requires { HasRoomForResults run.old }
    ensures ends { IfOk result (λ e. e ≡ Ends LayoutTryLater) }
    ensures run { OnOk result (run.new ≡ with_result run.old (arm 50 resop4 (inr (inl false)))) }
{
    run.push(&OpRes::LayoutGet(LayoutGetRes::TryLater(false)))?;
    Ok(OpEnd::Ends(Stat4::LayoutTryLater))
}

/// The file is in another phase, which is entered, and the layout that a client has of it is asked back; it is `now`, in seconds.
/// Takes memory.
fn try_later(
    state: &mut State,
    run: &mut Run<'_>,
    phase: Option<Phase>,
    now: u64,
    out: &mut Outbox,
) -> Result<OpEnd, NoMemory>
    requires { HasRoomForResults run.old }
    ensures op { HasOperated (later_by state.old run.old now phase) out.old result state.new run.new out.new }
    ensures on { AddsResult run.old result run.new }
{
    let Some(phase) = phase else {
        return run.refuse(50, Stat4::LayoutUnavailable);
    };
    let file = current_file(run);
    out.entries.push(Entry::Later { file, phase })?;
    ask_back(state, file, now, out)?;
    refuse_now(run)
}

/// LAYOUTGET: the current file is granted to the client for reading and writing, or its layout is given again; where another has
/// it that one is asked back. It is `now`, in seconds. Takes memory.
pub fn layout_get(
    state: &mut State,
    run: &mut Run<'_>,
    args: &LayoutGetArgs,
    now: u64,
    out: &mut Outbox,
) -> Result<OpEnd, NoMemory>
    requires { HasRoomForResults run.old }
    ensures op { HasOperated (runs_layout_get state.old run.old now (layoutget4_args_value args.now)) out.old result state.new run.new out.new }
    ensures on { AddsResult run.old result run.new }
{
    let fault = layout_fault(state, run);
    let found = LayoutGetFound {
        named: named_in(state, run, args.stateid),
        fault,
        size: size_for(state, current_file(run)),
    };
    match try_layout_get(run.so_far.current, *args, found) {
        Ok(file) => grant(state, run, file, out),
        Err(Stat4::LayoutTryLater) => try_later(state, run, phase_behind(fault), now, out),
        Err(status) => run.refuse(50, status),
    }
}
