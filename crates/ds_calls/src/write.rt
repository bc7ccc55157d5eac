//! WRITE to a mirror (RFC 1813, section 3.3.7).

ghost use Rattle.std.specs.Prelude.{◌≡◌, ◌≤◌, length};
ghost use Rattle.ff_xdr.specs.Form.{arm_spelling};
ghost use Rattle.ff_xdr.specs.Calls.{Puts};
ghost use Rattle.nfs3_wire.specs.Calls.{calls, call_value};
ghost use Rattle.nfs3_wire.specs.Write.{write_result, write_ok_value};
ghost use Rattle.cluster_model.specs.DsCalls.{Write, plain_ds_reply};
ghost use Rattle.ds_calls.specs.MadeCalls.{nfs_call_of};
ghost use Rattle.ds_calls.specs.GivenReplies.{write_answer, in_form, HasFewBytes};
ghost use Rattle.std.proofs.Common.{inl};
ghost use Rattle.nfs3_wire.specs.declared.objects.TheConstants.{MAX_DATA};

use crate::handle::handle_of;
use crate::shown::{odd_answer, shown_where};
use cluster_model::DsReply;
use ff_xdr::{NoMemory, Out, Wire};
use nfs3_wire::{Call3, Outcome, StableHow, WriteArgs, WriteOk, WriteReply, write_call};

/// Appends the arguments, or nothing.
pub fn put_write(
    fileid: u64,
    at: u64,
    synced: bool,
    bytes: &[u8],
    out: &mut Out,
) -> Result<(), NoMemory>
    requires { length bytes.now ≤ MAX_DATA }
    ensures { Puts out.old result out.new (arm_spelling calls (call_value (nfs_call_of (Write fileid at synced bytes.now)))) }
{
    let file = handle_of(fileid);
    let stable = if synced {
        StableHow::FileSync
    } else {
        StableHow::Unstable
    };
    let args = WriteArgs {
        file: &file,
        offset: at,
        count: bytes.len() as u32,
        stable,
        bytes,
    };
    write_call(&Call3::Write(args), out)
}

/// What was written of so many bytes.
fn written<'a>(synced: bool, size: usize, done: WriteOk) -> DsReply<'a>
    ensures is { plain_ds_reply result ≡ write_answer synced size (inl (write_ok_value done)) }
    ensures few { HasFewBytes (plain_ds_reply result) }
{
    let is_whole = done.count as usize == size;
    let is_stable = !synced || done.committed == StableHow::FileSync;
    if is_whole && is_stable {
        DsReply::Written {
            shown: shown_where(done.wcc.after),
            verifier: done.verifier,
        }
    } else {
        odd_answer()
    }
}

/// What the results say, of a WRITE of so many bytes.
pub fn read_write<'a>(synced: bool, size: usize, results: &[u8]) -> DsReply<'a>
    ensures is { plain_ds_reply result ≡ in_form write_result (write_answer synced size) results.now }
    ensures few { HasFewBytes (plain_ds_reply result) }
{
    match WriteReply::from_bytes(results) {
        Ok(Outcome::Done(done)) => written(synced, size, done),
        Ok(Outcome::Refused(status, wcc)) => DsReply::Failed {
            status: status.number(),
            shown: shown_where(wcc.after),
        },
        Err(_) => odd_answer(),
    }
}
