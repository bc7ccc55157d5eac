//! CREATE of a mirror's file (RFC 1813, section 3.3.8).

ghost use Rattle.std.specs.Prelude.{◌≡◌, ◌≤◌, length};
ghost use Rattle.ff_xdr.specs.Form.{arm_spelling};
ghost use Rattle.ff_xdr.specs.Calls.{Puts};
ghost use Rattle.nfs3_wire.specs.Calls.{calls, call_value};
ghost use Rattle.nfs3_wire.specs.Create.{create_result, create_ok_value};
ghost use Rattle.ff_xdr.specs.Arms.{arm};
ghost use Rattle.cluster_model.specs.DsCalls.{Create, mirror_name, plain_ds_reply};
ghost use Rattle.ds_calls.specs.MadeCalls.{nfs_call_of};
ghost use Rattle.ds_calls.specs.GivenReplies.{create_answer, in_form, HasFewBytes};
ghost use Rattle.std.proofs.Common.{inl};

use crate::handle::{ROOT, fileid_of, handle_of};
use crate::owner::owner_set;
use crate::shown::{odd_answer, shown_in};
use cluster_model::{Cred, DsReply, FILE_MODE};
use ff_xdr::{NoMemory, Out, Wire};
use itoa::write_digits;
use nfs3_wire::{Call3, CreateArgs, CreateHow, CreateOk, CreateReply, Outcome, write_call};

/// The longest name: m, and the digits of 2^64 - 1.
const LONGEST: usize = 21;

/// The name in the root that has this number: m, and the number.
fn mirror_name<'b>(number: u64, name: &'b mut [u8; LONGEST]) -> &'b [u8]
    ensures exact { result.now ≡ mirror_name number }
    ensures short { length result.now ≤ 21 }
{
    let digits = write_digits(number, name, LONGEST);
    name[digits - 1] = b'm';
    &name[digits - 1..]
}

/// Appends the arguments, or nothing.
pub fn put_create(name: u64, owner: Cred, out: &mut Out) -> Result<(), NoMemory>
    ensures { Puts out.old result out.new (arm_spelling calls (call_value (nfs_call_of (Create name owner.0)))) }
{
    let mut room = [0; LONGEST];
    let directory = handle_of(ROOT);
    let args = CreateArgs {
        directory: &directory,
        name: mirror_name(name, &mut room),
        how: CreateHow::Unchecked(owner_set(Some(FILE_MODE), owner)),
    };
    write_call(&Call3::Create(args), out)
}

/// The file that was created.
fn created<'a>(done: CreateOk<'_>) -> DsReply<'a>
    ensures is { plain_ds_reply result ≡ create_answer (inl (create_ok_value done.entry)) }
    ensures few { HasFewBytes (plain_ds_reply result) }
{
    match (done.file, done.attributes) {
        (Some(handle), Some(attributes)) => match fileid_of(handle) {
            Some(fileid) => DsReply::Created {
                fileid,
                shown: shown_in(attributes),
            },
            None => odd_answer(),
        },
        _ => odd_answer(),
    }
}

/// What the results say.
pub fn read_create<'a>(results: &[u8]) -> DsReply<'a>
    ensures is { plain_ds_reply result ≡ in_form create_result create_answer results.now }
    ensures few { HasFewBytes (plain_ds_reply result) }
{
    match CreateReply::from_bytes(results) {
        Ok(Outcome::Done(done)) => created(done),
        Ok(Outcome::Refused(status, _)) => DsReply::Failed {
            status: status.number(),
            shown: None,
        },
        Err(_) => odd_answer(),
    }
}
