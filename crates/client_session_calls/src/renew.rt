//! SEQUENCE alone, which renews the lease (RFC 8881, section 18.46).

ghost use Rattle.std.specs.Prelude.{◌≡◌, true, [], ◌∷◌};
ghost use Rattle.ff_xdr.specs.Calls.{Puts};
ghost use Rattle.ff_xdr.specs.Items.{contents};
ghost use Rattle.nfs4_compound.specs.Results.{resop4, op_res_value};
ghost use Rattle.client_compounds.specs.MdsArguments.{compound_args, sequence_op};
ghost use Rattle.client_session_calls.specs.SessionResults.{renew_results};

use client_compounds::{CompoundResults, Few, Start, few_of, put_ops, sequence_ok, sequence_op};
use ff_xdr::{NoMemory, Out};

/// Appends the arguments of the compound, or nothing.
pub fn put_renew(start: Start, out: &mut Out) -> Result<(), NoMemory>
    ensures { Puts out.old result out.new (compound_args (sequence_op start.session start.sequence true ∷ [])) }
{
    let s = sequence_op(start, true);
    put_ops(&[s], out)?;
    Ok(())
}

/// The results are those of the call, each OK.
pub fn renew_results(results: CompoundResults<'_>) -> bool
    ensures { result ≡ renew_results (contents resop4 op_res_value results.entry.place) }
{
    match few_of(results) {
        Few::One(s) => sequence_ok(&s),
        _ => false,
    }
}
