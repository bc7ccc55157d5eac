//! Compounds written, and results read (RFC 8881, sections 16.2.3 and 20.2.3).

ghost use Rattle.std.specs.Prelude.{◌≡◌, ◌<◌, ◌≤◌, ◌^◌, length, map, refl};
ghost use Rattle.std.specs.List.{AllByRecursion};
ghost use Rattle.ff_xdr.specs.Form.{Fits, spelling};
ghost use Rattle.ff_xdr.specs.Calls.{Puts};
ghost use Rattle.nfs4_types.specs.Status.{stat4_number};
ghost use Rattle.nfs4_compound.specs.Args.{argop4, op_value};
ghost use Rattle.nfs4_compound.specs.CbArgs.{cb_argop4, cb_op_value};
ghost use Rattle.nfs4_compound.specs.Results.{resop4, op_res_value};
ghost use Rattle.nfs4_compound.specs.CbResults.{cb_resop4, cb_res_value};
ghost use Rattle.nfs4_compound.specs.Compounds.{compound4_args, compound4_res, cb_compound4_args, cb_compound4_res};

use crate::{CbOp, CbRes, Op, OpRes, Tag4};
use ff_xdr::{Array, Items, NoMemory, Out, Wire};
use nfs4_types::Stat4;

/// The operations of a compound, as many as a list can have.
type OpArray<'a> = Array<'a, Op<'a>, { u32::MAX }>;

/// The results of a compound.
type ResArray<'a> = Array<'a, OpRes<'a>, { u32::MAX }>;

/// The operations of a callback compound.
type CbOpArray<'a> = Array<'a, CbOp<'a>, { u32::MAX }>;

/// The results of a callback compound.
type CbResArray<'a> = Array<'a, CbRes, { u32::MAX }>;

/// Appends the arguments of a compound, `COMPOUND4args`, or nothing.
pub fn put_compound<'a>(
    tag: &'a str,
    minorversion: u32,
    ops: &'a [Op<'a>],
    out: &mut Out,
) -> Result<(), NoMemory>
    requires tag { length tag.now ≤ 1024 }
    requires count { length ops.now < 2 ^ 32 }
    requires fits { AllByRecursion (Fits argop4) (map op_value ops.now) }
    ensures { Puts out.old result out.new (spelling compound4_args (tag.now, (minorversion, map op_value ops.now))) }
{
    let ops = OpArray {
        items: Items::made(ops),
    };
    (Tag4 { text: tag }, minorversion, ops).write(out)
}

/// Appends the result of a compound, `COMPOUND4res`, or nothing.
pub fn put_results<'a>(
    status: Stat4,
    tag: &'a str,
    results: &'a [OpRes<'a>],
    out: &mut Out,
) -> Result<(), NoMemory>
    requires tag { length tag.now ≤ 1024 }
    requires count { length results.now < 2 ^ 32 }
    requires fits { AllByRecursion (Fits resop4) (map op_res_value results.now) }
    ensures { Puts out.old result out.new (spelling compound4_res (stat4_number status, (tag.now, map op_res_value results.now))) }
{
    let results = ResArray {
        items: Items::made(results),
    };
    (status, Tag4 { text: tag }, results).write(out)
}

/// Appends the arguments of a callback compound, `CB_COMPOUND4args`, or nothing. `callback_ident` is not
/// used in NFSv4.1.
pub fn put_cb_compound<'a>(
    tag: &'a str,
    minorversion: u32,
    callback_ident: u32,
    ops: &'a [CbOp<'a>],
    out: &mut Out,
) -> Result<(), NoMemory>
    requires tag { length tag.now ≤ 1024 }
    requires count { length ops.now < 2 ^ 32 }
    requires fits { AllByRecursion (Fits cb_argop4) (map cb_op_value ops.now) }
    ensures { Puts out.old result out.new (spelling cb_compound4_args (tag.now, (minorversion, (callback_ident, map cb_op_value ops.now)))) }
{
    let ops = CbOpArray {
        items: Items::made(ops),
    };
    (Tag4 { text: tag }, minorversion, (callback_ident, ops)).write(out)
}

/// Appends the result of a callback compound, `CB_COMPOUND4res`, or nothing.
pub fn put_cb_results<'a>(
    status: Stat4,
    tag: &'a str,
    results: &'a [CbRes],
    out: &mut Out,
) -> Result<(), NoMemory>
    requires tag { length tag.now ≤ 1024 }
    requires count { length results.now < 2 ^ 32 }
    requires fits { AllByRecursion (Fits cb_resop4) (map cb_res_value results.now) }
    ensures { Puts out.old result out.new (spelling cb_compound4_res (stat4_number status, (tag.now, map cb_res_value results.now))) }
{
    let results = CbResArray {
        items: Items::made(results),
    };
    (status, Tag4 { text: tag }, results).write(out)
}
