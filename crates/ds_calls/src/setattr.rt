//! SETATTR of a mirror's owner (RFC 1813, section 3.3.2).

ghost use Rattle.std.specs.Prelude.{◌≡◌};
ghost use Rattle.ff_xdr.specs.Form.{arm_spelling};
ghost use Rattle.ff_xdr.specs.Calls.{Puts};
ghost use Rattle.nfs3_wire.specs.Calls.{calls, call_value};
ghost use Rattle.nfs3_wire.specs.Setattr.{setattr_result};
ghost use Rattle.nfs3_wire.specs.Status.{stat_number};
ghost use Rattle.nfs3_wire.specs.Wcc.{wcc_data_value};
ghost use Rattle.cluster_model.specs.DsCalls.{SetAttr, plain_ds_reply};
ghost use Rattle.ds_calls.specs.MadeCalls.{nfs_call_of};
ghost use Rattle.ds_calls.specs.GivenReplies.{setattr_answer, in_form, HasFewBytes};
ghost use Rattle.std.proofs.Common.{inr};

use crate::handle::handle_of;
use crate::owner::owner_set;
use crate::shown::{odd_answer, shown_where};
use cluster_model::{Cred, DsReply, Tick};
use ff_xdr::{NoMemory, Out, Wire};
use nfs3_wire::{Call3, Outcome, SetAttrArgs, SetAttrReply, Stat3, Time3, WccData, write_call};

/// Appends the arguments, or nothing.
pub fn put_setattr(fileid: u64, owner: Cred, guard: Tick, out: &mut Out) -> Result<(), NoMemory>
    ensures { Puts out.old result out.new (arm_spelling calls (call_value (nfs_call_of (SetAttr fileid owner.0 guard)))) }
{
    let file = handle_of(fileid);
    let guard = Time3 {
        seconds: guard.boot,
        nanos: guard.count,
    };
    let args = SetAttrArgs {
        file: &file,
        attributes: owner_set(None, owner),
        guard: Some(guard),
    };
    write_call(&Call3::SetAttr(args), out)
}

/// What a refusal says.
fn refused<'a>(status: Stat3, wcc: WccData) -> DsReply<'a>
    ensures is { plain_ds_reply result ≡ setattr_answer (inr (stat_number status, wcc_data_value wcc)) }
    ensures few { HasFewBytes (plain_ds_reply result) }
{
    let shown = shown_where(wcc.after);
    match (status, shown) {
        (Stat3::NotSync, Some(shown)) => DsReply::NotSync { shown },
        (Stat3::NotSync, None) => odd_answer(),
        _ => DsReply::Failed {
            status: status.number(),
            shown,
        },
    }
}

/// What the results say.
pub fn read_setattr<'a>(results: &[u8]) -> DsReply<'a>
    ensures is { plain_ds_reply result ≡ in_form setattr_result setattr_answer results.now }
    ensures few { HasFewBytes (plain_ds_reply result) }
{
    match SetAttrReply::from_bytes(results) {
        Ok(Outcome::Done(wcc)) => DsReply::Set {
            shown: shown_where(wcc.after),
        },
        Ok(Outcome::Refused(status, wcc)) => refused(status, wcc),
        Err(_) => odd_answer(),
    }
}
