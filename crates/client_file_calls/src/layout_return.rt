//! LAYOUTRETURN of a file's layout, with a report (RFC 8881, section 18.44; RFC 8435, section 9.3).

ghost use Rattle.std.specs.Prelude.{◌≡◌, ◌≤◌, ◌<◌, ◌^◌, true, ◌∷◌, length};
ghost use Rattle.ff_xdr.specs.Form.{Fits, spelling};
ghost use Rattle.ff_xdr.specs.Calls.{Grows, Puts};
ghost use Rattle.ff_xdr.specs.Items.{contents};
ghost use Rattle.nfs4_types.specs.Ids.{device_id_of};
ghost use Rattle.ff_layout.specs.DeviceError.{device_error4, device_error4_value};
ghost use Rattle.ff_layout.specs.IoError.{ff_ioerr4};
ghost use Rattle.nfs4_compound.specs.Args.{argop4, op_value};
ghost use Rattle.nfs4_compound.specs.Results.{resop4, op_res_value};
ghost use Rattle.client_compounds.specs.MdsArguments.{compound_args, sequence_op};
ghost use Rattle.client_file_calls.specs.FileOps.{io_error_of, layout_return_of, layout_return_ops, return_body};
ghost use Rattle.client_file_calls.specs.FileResults.{layout_return_ok, layout_return_results};

use crate::handles::{handle_of, put_fh_ok};
use crate::layouts::{FLEX_FILES, READS_AND_WRITES};
use client_compounds::{CompoundResults, Few, Start, few_of, put_ops, sequence_ok, sequence_op};
use cluster_model::FileId;
use ff_layout::{DeviceError, IoErr};
use ff_xdr::{Items, NoMemory, Out, Wire};
use nfs4_compound::{Op, OpRes};
use nfs4_file_ops::{LayoutReturn, LayoutReturnArgs, LayoutReturnFile};
use nfs4_types::{Handle4, OpResult, OpaqueBody, Stateid, device_of};
use std::alloc::Global;

/// A mirror that failed, by its data server, and why: a status of NFS.
#[derive(Clone, Copy, Debug, PartialEq, Eq)]
pub struct FailedMirror {
    pub server: u32,
    pub status: u32,
}

/// The operation that failed: WRITE.
pub const WRITE: u32 = 38;

/// The error at the device of a mirror.
fn device_error(mirror: FailedMirror) -> DeviceError
    ensures value { device_error4_value result ≡ ((device_id_of mirror.server).0, (mirror.status, 38)) }
    ensures fits { Fits device_error4 (device_error4_value result) }
{
    DeviceError {
        device: device_of(mirror.server),
        status: mirror.status,
        opnum: WRITE,
    }
}

/// Appends what is reported of a mirror that failed (RFC 8435, section 9.1.1). At an error a part of it may
/// stand.
fn put_error(stateid: Stateid, mirror: &FailedMirror, out: &mut Out) -> Result<(), NoMemory>
    ensures { Grows out.old result out.new (spelling ff_ioerr4 (io_error_of stateid mirror.now)) }
{
    let errors = [device_error(*mirror)];
    let error = IoErr {
        offset: 0,
        length: u64::MAX,
        stateid,
        errors: Items::made(&errors),
    };
    error.put(out)?;
    Ok(())
}

/// Appends the report; there are no statistics (RFC 8435, section 9.3). At an error a part of it may stand.
fn put_report(stateid: Stateid, failed: &[FailedMirror], out: &mut Out) -> Result<(), NoMemory>
    requires { length failed.now ≤ 4 }
    ensures { Grows out.old result out.new (return_body stateid failed.now) }
{
    out.number32(failed.len() as u32)?;
    for mirror in failed {
        put_error(stateid, mirror, out)?;
    }
    out.number32(0)?;
    Ok(())
}

/// LAYOUTRETURN of all of the file, with this report.
fn layout_return_op<'a>(stateid: Stateid, body: &'a [u8]) -> Op<'a>
    requires { length body.now < 2 ^ 32 }
    ensures value { op_value result ≡ layout_return_of stateid body.now }
    ensures fits { Fits argop4 (op_value result) }
{
    Op::LayoutReturn(LayoutReturnArgs {
        reclaim: false,
        layout_type: FLEX_FILES,
        iomode: READS_AND_WRITES,
        kind: LayoutReturn::File(LayoutReturnFile {
            offset: 0,
            length: u64::MAX,
            stateid,
            body: OpaqueBody { bytes: body },
        }),
    })
}

/// Appends the arguments of the compound, or nothing. The report is spelled first, in memory of `alloc`.
pub fn put_layout_return(
    alloc: Global,
    start: Start,
    file: FileId,
    stateid: Stateid,
    failed: &[FailedMirror],
    out: &mut Out,
) -> Result<(), NoMemory>
    requires { length failed.now ≤ 4 }
    ensures { Puts out.old result out.new (compound_args (sequence_op start.session start.sequence true ∷ layout_return_ops file stateid failed.now)) }
{
    let mut report = Out::new(alloc);
    put_report(stateid, failed, &mut report)?;
    let body = report.bytes();
    let handle = handle_of(file);
    let s = sequence_op(start, true);
    let p = Op::PutFh(Handle4 { bytes: &handle });
    let l = layout_return_op(stateid, body);
    put_ops(&[s, p, l], out)?;
    Ok(())
}

/// A LAYOUTRETURN that is OK.
fn layout_return_ok(of: &OpRes<'_>) -> bool
    ensures { result ≡ layout_return_ok (op_res_value of.now) }
{
    matches!(of, OpRes::LayoutReturn(OpResult::Done(_)))
}

/// The results are those of the call, each OK.
pub fn layout_return_results(results: CompoundResults<'_>) -> bool
    ensures { result ≡ layout_return_results (contents resop4 op_res_value results.entry.place) }
{
    match few_of(results) {
        Few::Three(s, p, r) => sequence_ok(&s) && put_fh_ok(&p) && layout_return_ok(&r),
        _ => false,
    }
}
