//! READ through the metadata server (RFC 8881, section 18.22).

ghost use Rattle.std.specs.Prelude.{◌≡◌, ◌+◌, ◌&&◌, false, ◌∷◌, length, nat_le};
ghost use Rattle.std.specs.Option.{option_map};
ghost use Rattle.cluster_model.specs.declared.limits.TheConstants.{MAX_FILE};
ghost use Rattle.ff_xdr.specs.Form.{Fits};
ghost use Rattle.ff_xdr.specs.Calls.{Puts};
ghost use Rattle.ff_xdr.specs.Items.{contents};
ghost use Rattle.nfs4_compound.specs.Args.{argop4, op_value};
ghost use Rattle.nfs4_compound.specs.Results.{resop4, op_res_value};
ghost use Rattle.client_compounds.specs.MdsArguments.{compound_args, sequence_op};
ghost use Rattle.client_file_calls.specs.FileOps.{read_op, read_ops};
ghost use Rattle.client_file_calls.specs.FileResults.{plain_bytes_read, read4_done, read_results};

use crate::handles::{handle_of, put_fh_ok};
use crate::open::OpenFile;
use client_compounds::{CompoundResults, Few, Start, few_of, put_ops, sequence_ok, sequence_op};
use cluster_model::MAX_FILE;
use ff_xdr::{NoMemory, Out};
use nfs4_compound::{Op, OpRes};
use nfs4_file_ops::Read4Args;
use nfs4_types::{Handle4, OpResult, Stateid};

/// The bytes that were read, and whether the file ends behind them.
#[derive(Clone, Copy, Debug, PartialEq, Eq)]
pub struct BytesRead<'a> {
    pub eof: bool,
    pub bytes: &'a [u8],
}

/// READ.
fn read_op<'a>(stateid: Stateid, at: u64, count: u32) -> Op<'a>
    ensures value { op_value result ≡ read_op stateid at count }
    ensures fits { Fits argop4 (op_value result) }
{
    Op::Read(Read4Args {
        stateid,
        offset: at,
        count,
    })
}

/// Appends the arguments of the compound, or nothing.
pub fn put_read(
    start: Start,
    file: OpenFile,
    at: u64,
    count: u32,
    out: &mut Out,
) -> Result<(), NoMemory>
    ensures { Puts out.old result out.new (compound_args (sequence_op start.session start.sequence false ∷ read_ops file at count)) }
{
    let handle = handle_of(file.file);
    let s = sequence_op(start, false);
    let p = Op::PutFh(Handle4 { bytes: &handle });
    let r = read_op(file.stateid, at, count);
    put_ops(&[s, p, r], out)?;
    Ok(())
}

/// There are no more bytes than were asked for, and none past the end of the longest file.
fn are_in_place(at: u64, count: u32, bytes: &[u8]) -> bool
    ensures { result ≡ (nat_le (length bytes.now) count && nat_le (at + length bytes.now) MAX_FILE) }
{
    let size = bytes.len() as u64;
    size <= count as u64 && size <= MAX_FILE && at <= MAX_FILE - size
}

/// The bytes of a READ that is OK.
fn bytes_read<'a>(at: u64, count: u32, of: &OpRes<'a>) -> Option<BytesRead<'a>>
    ensures { option_map plain_bytes_read result ≡ read4_done at count (op_res_value of.now) }
{
    match of {
        OpRes::Read(OpResult::Done(done)) => {
            if are_in_place(at, count, done.bytes.bytes) {
                Some(BytesRead {
                    eof: done.eof,
                    bytes: done.bytes.bytes,
                })
            } else {
                None
            }
        }
        _ => None,
    }
}

/// The bytes, where the results are those of a READ of at most `count` bytes from the byte `at` on, each OK.
pub fn read_results<'a>(at: u64, count: u32, results: CompoundResults<'a>) -> Option<BytesRead<'a>>
    ensures { option_map plain_bytes_read result ≡ read_results at count (contents resop4 op_res_value results.entry.place) }
{
    match few_of(results) {
        Few::Three(s, p, r) => {
            if sequence_ok(&s) && put_fh_ok(&p) {
                bytes_read(at, count, &r)
            } else {
                None
            }
        }
        _ => None,
    }
}
