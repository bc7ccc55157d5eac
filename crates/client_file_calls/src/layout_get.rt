//! LAYOUTGET of a flexible-file layout (RFC 8881, section 18.43; RFC 8435, section 5.1).

ghost use Rattle.std.specs.Prelude.{◌≡◌, true, ◌∷◌};
ghost use Rattle.ff_xdr.specs.Form.{Fits};
ghost use Rattle.ff_xdr.specs.Calls.{Puts};
ghost use Rattle.ff_xdr.specs.Items.{contents};
ghost use Rattle.nfs4_file_ops.specs.Layout4.{layout4, layout4_value};
ghost use Rattle.nfs4_compound.specs.Args.{argop4, op_value};
ghost use Rattle.nfs4_compound.specs.Results.{resop4, op_res_value};
ghost use Rattle.client_compounds.specs.MdsArguments.{compound_args, sequence_op};
ghost use Rattle.client_file_calls.specs.FileOps.{layout_get_op, layout_get_ops};
ghost use Rattle.client_file_calls.specs.FileResults.{layout_get_ok, layout_get_results, one_layout};

use crate::grant::{LayoutGrant, grant_in};
use crate::handles::{handle_of, put_fh_ok};
use crate::layouts::{FLEX_FILES, MAX_COUNT, READS_AND_WRITES};
use crate::open::OpenFile;
use client_compounds::{CompoundResults, Few, Start, few_of, put_ops, sequence_ok, sequence_op};
use ff_xdr::{Items, NoMemory, Out};
use nfs4_compound::{Op, OpRes};
use nfs4_file_ops::{Layout4, LayoutGetArgs, LayoutGetRes};
use nfs4_types::{Handle4, Stateid};

/// LAYOUTGET of all of the file.
fn layout_get_op<'a>(stateid: Stateid) -> Op<'a>
    ensures value { op_value result ≡ layout_get_op stateid }
    ensures fits { Fits argop4 (op_value result) }
{
    Op::LayoutGet(LayoutGetArgs {
        signal: false,
        layout_type: FLEX_FILES,
        iomode: READS_AND_WRITES,
        offset: 0,
        length: u64::MAX,
        minlength: 0,
        stateid,
        maxcount: MAX_COUNT,
    })
}

/// Appends the arguments of the compound, or nothing.
pub fn put_layout_get(start: Start, file: OpenFile, out: &mut Out) -> Result<(), NoMemory>
    ensures { Puts out.old result out.new (compound_args (sequence_op start.session start.sequence true ∷ layout_get_ops file)) }
{
    let handle = handle_of(file.file);
    let s = sequence_op(start, true);
    let p = Op::PutFh(Handle4 { bytes: &handle });
    let l = layout_get_op(file.stateid);
    put_ops(&[s, p, l], out)?;
    Ok(())
}

/// The layout, where there is one alone, for reading and writing and of flexible files.
fn one_layout(stateid: Stateid, layouts: Items<'_, Layout4<'_>>) -> Option<LayoutGrant>
    ensures { result ≡ one_layout stateid (contents layout4 layout4_value layouts.entry.place) }
{
    match few_of(layouts) {
        Few::One(layout) => {
            if layout.iomode == READS_AND_WRITES && layout.layout_type == FLEX_FILES {
                grant_in(stateid, layout.body.bytes)
            } else {
                None
            }
        }
        _ => None,
    }
}

/// The layout of a LAYOUTGET that is OK.
fn layout_get_ok(of: &OpRes<'_>) -> Option<LayoutGrant>
    ensures { result ≡ layout_get_ok (op_res_value of.now) }
{
    match of {
        OpRes::LayoutGet(LayoutGetRes::Done(done)) => {
            one_layout(done.stateid, done.layouts.items)
        }
        _ => None,
    }
}

/// The layout, where the results are those of the call, each OK.
pub fn layout_get_results(results: CompoundResults<'_>) -> Option<LayoutGrant>
    ensures { result ≡ layout_get_results (contents resop4 op_res_value results.entry.place) }
{
    match few_of(results) {
        Few::Three(s, p, l) => {
            if sequence_ok(&s) && put_fh_ok(&p) {
                layout_get_ok(&l)
            } else {
                None
            }
        }
        _ => None,
    }
}
