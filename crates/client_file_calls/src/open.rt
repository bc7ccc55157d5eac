//! OPEN of a name in the root, and its handle (RFC 8881, sections 18.8 and 18.16).

ghost use Rattle.std.specs.Prelude.{◌≡◌, ◌≤◌, ◌<◌, ◌^◌, true, ◌∷◌, length};
ghost use Rattle.ff_xdr.specs.Form.{Fits};
ghost use Rattle.ff_xdr.specs.Calls.{Puts};
ghost use Rattle.ff_xdr.specs.Items.{contents};
ghost use Rattle.nfs4_types.specs.Handles.{file_number_of};
ghost use Rattle.nfs4_compound.specs.Args.{argop4, op_value};
ghost use Rattle.nfs4_compound.specs.Results.{resop4, op_res_value};
ghost use Rattle.client_compounds.specs.MdsArguments.{compound_args, sequence_op};
ghost use Rattle.client_file_calls.specs.FileOps.{open_op, open_ops};
ghost use Rattle.client_file_calls.specs.FileResults.{get_fh_ok, open_ok, open_results, opened_file, put_root_fh_ok, small_number};

use client_compounds::{CompoundResults, Few, Start, few_of, put_ops, sequence_ok, sequence_op};
use cluster_model::FileId;
use ff_xdr::{Items, NoMemory, Out};
use nfs4_compound::{Op, OpRes};
use nfs4_file_ops::{CreateHow4, Fattr4, OpenArgs, OpenHow};
use nfs4_types::{ArmZero, Bitmap, Component4, OpResult, OpaqueBody, Owner4, Stateid, file_number};

/// A file that is open: its number, which its handle says, and the stateid of the open.
#[derive(Clone, Copy, Debug, PartialEq, Eq)]
pub struct OpenFile {
    pub file: FileId,
    pub stateid: Stateid,
}

/// OPEN4_SHARE_ACCESS_BOTH.
pub const SHARE_BOTH: u32 = 3;

/// OPEN in the current directory: for reading and writing, UNCHECKED with no attributes.
fn open_op<'a>(owner: &'a [u8], name: &'a str) -> Op<'a>
    requires owner { length owner.now ≤ 1024 }
    requires name { length name.now < 2 ^ 32 }
    ensures value { op_value result ≡ open_op owner.now name.now }
    ensures fits { Fits argop4 (op_value result) }
{
    let none = Fattr4 {
        mask: Bitmap {
            words: Items::made(&[]),
        },
        values: OpaqueBody { bytes: &[] },
    };
    Op::Open(OpenArgs {
        seqid: 0,
        share_access: SHARE_BOTH,
        share_deny: 0,
        clientid: 0,
        owner: Owner4 { bytes: owner },
        how: OpenHow::Create(CreateHow4::Unchecked(none)),
        claim: ArmZero {
            body: Component4 {
                bytes: name.as_bytes(),
            },
        },
    })
}

/// Appends the arguments of the compound, or nothing.
pub fn put_open<'a>(
    start: Start,
    owner: &'a [u8],
    name: &'a str,
    out: &mut Out,
) -> Result<(), NoMemory>
    requires owner { length owner.now ≤ 1024 }
    requires name { length name.now < 2 ^ 32 }
    ensures { Puts out.old result out.new (compound_args (sequence_op start.session start.sequence true ∷ open_ops owner.now name.now)) }
{
    let s = sequence_op(start, true);
    let o = open_op(owner, name);
    put_ops(&[s, Op::PutRootFh, o, Op::GetFh], out)?;
    Ok(())
}

/// A PUTROOTFH that is OK (RFC 8881, section 18.21).
fn put_root_fh_ok(of: &OpRes<'_>) -> bool
    ensures { result ≡ put_root_fh_ok (op_res_value of.now) }
{
    matches!(of, OpRes::PutRootFh(OpResult::Done(_)))
}

/// The stateid of an OPEN that is OK.
fn open_ok(of: &OpRes<'_>) -> Option<Stateid>
    ensures { result ≡ open_ok (op_res_value of.now) }
{
    match of {
        OpRes::Open(OpResult::Done(done)) => Some(done.stateid),
        _ => None,
    }
}

/// The number of the file, where it is below 2^32.
fn small_number(handle: &[u8]) -> Option<u32>
    ensures { result ≡ small_number (file_number_of handle.now) }
{
    match file_number(handle) {
        None => None,
        Some(number) => {
            if number > u32::MAX as u64 {
                return None;
            }
            Some(number as u32)
        }
    }
}

/// The number of the file of a GETFH that is OK.
fn get_fh_ok(of: &OpRes<'_>) -> Option<u32>
    ensures { result ≡ get_fh_ok (op_res_value of.now) }
{
    match of {
        OpRes::GetFh(OpResult::Done(handle)) => small_number(handle.bytes),
        _ => None,
    }
}

/// The file that is open, where both results are OK.
fn opened_file(of: &OpRes<'_>, handle: &OpRes<'_>) -> Option<OpenFile>
    ensures { result ≡ opened_file (open_ok (op_res_value of.now)) (get_fh_ok (op_res_value handle.now)) }
{
    match (open_ok(of), get_fh_ok(handle)) {
        (Some(stateid), Some(file)) => Some(OpenFile {
            file: FileId(file),
            stateid,
        }),
        _ => None,
    }
}

/// The file that is open, where the results are those of the call, each OK.
pub fn open_results(results: CompoundResults<'_>) -> Option<OpenFile>
    ensures { result ≡ open_results (contents resop4 op_res_value results.entry.place) }
{
    match few_of(results) {
        Few::Four(s, p, o, g) => {
            if sequence_ok(&s) && put_root_fh_ok(&p) {
                opened_file(&o, &g)
            } else {
                None
            }
        }
        _ => None,
    }
}
