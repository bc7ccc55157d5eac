//! WRITE through the metadata server (RFC 8881, section 18.32).

ghost use Rattle.std.specs.Prelude.{◌≡◌, ◌<◌, ◌^◌, true, ◌∷◌, length};
ghost use Rattle.ff_xdr.specs.Form.{Fits};
ghost use Rattle.ff_xdr.specs.Calls.{Puts};
ghost use Rattle.ff_xdr.specs.Items.{contents};
ghost use Rattle.nfs4_compound.specs.Args.{argop4, op_value};
ghost use Rattle.nfs4_compound.specs.Results.{resop4, op_res_value};
ghost use Rattle.client_compounds.specs.MdsArguments.{compound_args, sequence_op};
ghost use Rattle.client_file_calls.specs.FileOps.{write_op, write_ops};
ghost use Rattle.client_file_calls.specs.FileResults.{write4_done, write_results};

use crate::handles::{handle_of, put_fh_ok};
use crate::open::OpenFile;
use client_compounds::{CompoundResults, Few, Start, few_of, put_ops, sequence_ok, sequence_op};
use ff_xdr::{NoMemory, Out};
use nfs4_compound::{Op, OpRes};
use nfs4_file_ops::{StableHow4, Write4Args};
use nfs4_types::{Handle4, OpResult, OpaqueBody, Stateid};

/// WRITE, FILE_SYNC.
fn write_op<'a>(stateid: Stateid, at: u64, bytes: &'a [u8]) -> Op<'a>
    requires { length bytes.now < 2 ^ 32 }
    ensures value { op_value result ≡ write_op stateid at bytes.now }
    ensures fits { Fits argop4 (op_value result) }
{
    Op::Write(Write4Args {
        stateid,
        offset: at,
        stable: StableHow4::FileSync,
        bytes: OpaqueBody { bytes },
    })
}

/// Appends the arguments of the compound, or nothing.
pub fn put_write(
    start: Start,
    file: OpenFile,
    at: u64,
    bytes: &[u8],
    out: &mut Out,
) -> Result<(), NoMemory>
    requires { length bytes.now < 2 ^ 32 }
    ensures { Puts out.old result out.new (compound_args (sequence_op start.session start.sequence true ∷ write_ops file at bytes.now)) }
{
    let handle = handle_of(file.file);
    let s = sequence_op(start, true);
    let p = Op::PutFh(Handle4 { bytes: &handle });
    let w = write_op(file.stateid, at, bytes);
    put_ops(&[s, p, w], out)?;
    Ok(())
}

/// A WRITE that is OK. Its count and its verifier are not looked at.
fn write4_done(of: &OpRes<'_>) -> bool
    ensures { result ≡ write4_done (op_res_value of.now) }
{
    matches!(of, OpRes::Write(OpResult::Done(_)))
}

/// The results are those of the call, each OK.
pub fn write_results(results: CompoundResults<'_>) -> bool
    ensures { result ≡ write_results (contents resop4 op_res_value results.entry.place) }
{
    match few_of(results) {
        Few::Three(s, p, w) => sequence_ok(&s) && put_fh_ok(&p) && write4_done(&w),
        _ => false,
    }
}
