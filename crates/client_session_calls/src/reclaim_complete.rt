//! RECLAIM_COMPLETE (RFC 8881, section 18.51).

ghost use Rattle.std.specs.Prelude.{◌≡◌, true, ◌∷◌};
ghost use Rattle.ff_xdr.specs.Calls.{Puts};
ghost use Rattle.ff_xdr.specs.Items.{contents};
ghost use Rattle.nfs4_compound.specs.Results.{resop4, op_res_value};
ghost use Rattle.client_compounds.specs.MdsArguments.{compound_args, sequence_op};
ghost use Rattle.client_session_calls.specs.SessionOps.{reclaim_complete_ops};
ghost use Rattle.client_session_calls.specs.SessionResults.{reclaim_complete_ok, reclaim_complete_results};

use client_compounds::{CompoundResults, Few, Start, few_of, put_ops, sequence_ok, sequence_op};
use ff_xdr::{NoMemory, Out};
use nfs4_compound::{Op, OpRes};
use nfs4_types::OpResult;

/// Appends the arguments of the compound, or nothing.
pub fn put_reclaim_complete(start: Start, out: &mut Out) -> Result<(), NoMemory>
    ensures { Puts out.old result out.new (compound_args (sequence_op start.session start.sequence true ∷ reclaim_complete_ops)) }
{
    let s = sequence_op(start, true);
    put_ops(&[s, Op::ReclaimComplete(false)], out)?;
    Ok(())
}

/// A RECLAIM_COMPLETE that is OK.
fn reclaim_complete_ok(of: &OpRes<'_>) -> bool
    ensures { result ≡ reclaim_complete_ok (op_res_value of.now) }
{
    matches!(of, OpRes::ReclaimComplete(OpResult::Done(_)))
}

/// The results are those of the call, each OK.
pub fn reclaim_complete_results(results: CompoundResults<'_>) -> bool
    ensures { result ≡ reclaim_complete_results (contents resop4 op_res_value results.entry.place) }
{
    match few_of(results) {
        Few::Two(s, r) => sequence_ok(&s) && reclaim_complete_ok(&r),
        _ => false,
    }
}
