//! One operation after the other.

ghost use Rattle.std.specs.Prelude.{◌≡◌, ◌≢◌, ◌<◌, ◌==◌, length, IfOk, OnOk};
ghost use Rattle.nfs4_types.specs.declared.status.Stat4.TheVariants as stat;
ghost use Rattle.mds_rule.specs.MdsStates.{MdsValue};
ghost use Rattle.mds_rule.specs.OpSteps.{with_result, refused_as, unread, is_operation_number};
ghost use Rattle.cluster_model.specs.declared.outbox.Outbox.{Outbox as Box};
ghost use Rattle.compound_run.specs.declared.op_end.OpEnd.TheVariants.{Goes, Ends};
ghost use Rattle.compound_run.specs.CompoundRuns.{Where, HasOperated, HasMadeStep};
ghost use Rattle.mds_compounds.specs.Walks.{next_step, HasRoomToGoOn, HasWalked, goes_on};

use crate::finish::finish;
use crate::operate::operate_in_session;
use cluster_model::Outbox;
use compound_run::{OpEnd, Run, refusal};
use ff_xdr::NoMemory;
use mds_state::State;
use nfs4_compound::NextOp;
use nfs4_types::Stat4;

/// OP_ILLEGAL: what stands for an operation that there is not, and for one that is out of form (RFC 8881, section 15.1.1.3).
const ILLEGAL: u32 = 10_044;

/// Behind the last operation stands one with this number, which is refused by this status. Takes memory.
fn refuse_behind(run: &mut Run<'_>, number: u32, status: Stat4) -> Result<OpEnd, NoMemory>
    requires few { length run.old.results < 18 }
    requires refusal { status ≢ stat.Ok }
    requires no_size { Where (number == 47) (status ≢ stat.TooSmall) }
    requires no_word { Where (number == 50) (status ≢ stat.LayoutTryLater) }
    ensures ends { IfOk result (λ e. e ≡ Ends status) }
    ensures run { OnOk result (run.new ≡ with_result run.old (refused_as number status)) }
{
    run.so_far.results.push(&refusal(number, status))?;
    Ok(OpEnd::Ends(status))
}

/// Where an operation stands that is not built: NOTSUPP, or OP_ILLEGAL where there is none of this number. Takes memory.
fn refuse_unread(run: &mut Run<'_>, number: u32) -> Result<OpEnd, NoMemory>
    requires { length run.old.results < 18 }
    ensures op { (m : MdsValue) (out : Box) → HasOperated (unread m run.old number (is_operation_number number)) out result m run.new out }
    ensures on { HasWalked run.old result run.new }
{
    if (3..=58).contains(&number) {
        return refuse_behind(run, number, Stat4::NotSupp);
    }
    refuse_behind(run, ILLEGAL, Stat4::OpIllegal)
}

/// The next operation, or what ends the compound behind the last that is read; it is `now`, in seconds. Takes memory.
fn step(state: &mut State, run: &mut Run<'_>, now: u64, out: &mut Outbox) -> Result<OpEnd, NoMemory>
    requires { HasRoomToGoOn run.old }
    ensures op { HasOperated (next_step now state.old run.old run.old.ops) out.old result state.new run.new out.new }
    ensures on { HasWalked run.old result run.new }
{
    match run.ops.next() {
        NextOp::Op(op) => operate_in_session(state, run, &op, now, out),
        NextOp::Unread(number) => refuse_unread(run, number),
        NextOp::Bad(_) => refuse_behind(run, ILLEGAL, Stat4::BadXdr),
        NextOp::End => Ok(OpEnd::Ends(Stat4::Ok)),
    }
}

/// Behind an operation that came to `end` the compound goes on, to the next that waits or to its reply; it is `now`, in seconds.
/// Takes memory.
pub fn go_on(
    state: &mut State,
    run: &mut Run<'_>,
    end: OpEnd,
    now: u64,
    out: &mut Outbox,
) -> Result<(), NoMemory>
    requires { end ≡ Goes → HasRoomToGoOn run.old }
    ensures { OnOk result (HasMadeStep (goes_on now end state.old run.old) out.old state.new out.new) }
{
    let mut end = end;
    loop {
        match end {
            OpEnd::Goes => end = step(state, run, now, out)?,
            OpEnd::Ends(status) => return finish(state, run, status, out),
            OpEnd::Waits => return Ok(()),
        }
    }
}
