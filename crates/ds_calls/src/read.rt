//! READ of a mirror (RFC 1813, section 3.3.6).

ghost use Rattle.std.specs.Prelude.{◌≡◌};
ghost use Rattle.ff_xdr.specs.Form.{arm_spelling};
ghost use Rattle.ff_xdr.specs.Calls.{Puts};
ghost use Rattle.nfs3_wire.specs.Calls.{calls, call_value};
ghost use Rattle.nfs3_wire.specs.Read.{read_result, read_ok_value};
ghost use Rattle.cluster_model.specs.DsCalls.{Read, plain_ds_reply};
ghost use Rattle.ds_calls.specs.MadeCalls.{nfs_call_of};
ghost use Rattle.ds_calls.specs.GivenReplies.{read_answer, in_form, HasFewBytes};
ghost use Rattle.std.proofs.Common.{inl};

use crate::handle::handle_of;
use crate::shown::{odd_answer, shown_where};
use cluster_model::DsReply;
use ff_xdr::{NoMemory, Out, Wire};
use nfs3_wire::{Call3, Outcome, ReadArgs, ReadOk, ReadReply, write_call};

/// Appends the arguments, or nothing.
pub fn put_read(fileid: u64, at: u64, count: u32, out: &mut Out) -> Result<(), NoMemory>
    ensures { Puts out.old result out.new (arm_spelling calls (call_value (nfs_call_of (Read fileid at count)))) }
{
    let file = handle_of(fileid);
    let args = ReadArgs {
        file: &file,
        offset: at,
        count,
    };
    write_call(&Call3::Read(args), out)
}

/// The bytes that were read, of at most `asked`.
fn bytes_read<'a>(asked: u32, done: ReadOk<'a>) -> DsReply<'a>
    ensures is { plain_ds_reply result ≡ read_answer asked (inl (read_ok_value done.entry)) }
    ensures few { HasFewBytes (plain_ds_reply result) }
{
    if done.count as usize == done.bytes.len() && done.count <= asked {
        DsReply::Bytes {
            shown: shown_where(done.attributes),
            eof: done.eof,
            bytes: done.bytes,
        }
    } else {
        odd_answer()
    }
}

/// What the results say, of a READ of at most `asked` bytes.
pub fn read_read<'a>(asked: u32, results: &'a [u8]) -> DsReply<'a>
    ensures is { plain_ds_reply result ≡ in_form read_result (read_answer asked) results.now }
    ensures few { HasFewBytes (plain_ds_reply result) }
{
    match ReadReply::from_bytes(results) {
        Ok(Outcome::Done(done)) => bytes_read(asked, done),
        Ok(Outcome::Refused(status, attributes)) => DsReply::Failed {
            status: status.number(),
            shown: shown_where(attributes),
        },
        Err(_) => odd_answer(),
    }
}
