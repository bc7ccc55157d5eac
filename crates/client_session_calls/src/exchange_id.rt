//! EXCHANGE_ID (RFC 8881, section 18.35).

ghost use Rattle.std.specs.Prelude.{◌≡◌, ◌≤◌, [], ◌∷◌, length};
ghost use Rattle.ff_xdr.specs.Calls.{Puts};
ghost use Rattle.ff_xdr.specs.Items.{contents};
ghost use Rattle.nfs4_compound.specs.Results.{resop4, op_res_value};
ghost use Rattle.client_compounds.specs.MdsArguments.{compound_args};
ghost use Rattle.client_session_calls.specs.SessionOps.{exchange_id_op};
ghost use Rattle.client_session_calls.specs.SessionResults.{exchange_id_results};

use client_compounds::{CompoundResults, Few, few_of, put_ops};
use ff_xdr::{NoMemory, Out};
use nfs4_compound::{Op, OpRes};
use nfs4_session_ops::ExchangeIdArgs;
use nfs4_types::{ArmZero, AtMostOne, OpResult, Owner4};

/// The client's number, and that of its next CREATE_SESSION.
#[derive(Clone, Copy, Debug, PartialEq, Eq)]
pub struct ClientGiven {
    pub clientid: u64,
    pub sequence: u32,
}

/// Appends the arguments of the compound, or nothing.
pub fn put_exchange_id(owner: &[u8], verifier: u64, out: &mut Out) -> Result<(), NoMemory>
    requires { length owner.now ≤ 1024 }
    ensures { Puts out.old result out.new (compound_args (exchange_id_op owner.now verifier ∷ [])) }
{
    let args = ExchangeIdArgs {
        verifier,
        owner: Owner4 { bytes: owner },
        flags: 0,
        protect: ArmZero { body: () },
        impl_id: AtMostOne { value: None },
    };
    put_ops(&[Op::ExchangeId(args)], out)?;
    Ok(())
}

/// What the results say, where they are those of the call and OK.
pub fn exchange_id_results(results: CompoundResults<'_>) -> Option<ClientGiven>
    ensures { result ≡ exchange_id_results (contents resop4 op_res_value results.entry.place) }
{
    match few_of(results) {
        Few::One(OpRes::ExchangeId(OpResult::Done(done))) => Some(ClientGiven {
            clientid: done.clientid,
            sequence: done.sequence,
        }),
        _ => None,
    }
}
