//! Compounds and callback compounds, their operations one by one.

ghost use Rattle.std.specs.Prelude.{◌≤◌, length};

use crate::asked::all_fit;
use crate::show::{put_refusal, put_verdict};
use crate::walk::{behind_stop, stop_of, take_ops};
use ff_xdr::Out;
use nfs4_compound::{
    CbCompound, CbOp, CbOps, Compound, MAX_TAG4, Op, Ops, Stop, judge_cb_compound, judge_compound,
    put_cb_compound, put_compound,
};
use row_words::Answer;

/// The compound of these operations spells these bytes.
fn is_spelled(compound: &Compound<'_>, ops: &[Op<'_>], bytes: &[u8], answer: &mut Answer) -> bool {
    let tag = compound.tag();
    if tag.len() > MAX_TAG4 as usize || ops.len() > u32::MAX as usize {
        return false;
    }
    if !all_fit(ops) {
        return false;
    }
    let mut out = Out::new(answer.alloc());
    if put_compound(tag, compound.minorversion(), ops, &mut out).is_err() {
        answer.want_memory();
    }
    out.bytes() == bytes
}

/// The same of a callback compound.
fn is_cb_spelled(
    compound: &CbCompound<'_>,
    ops: &[CbOp<'_>],
    bytes: &[u8],
    answer: &mut Answer,
) -> bool {
    let tag = compound.tag();
    if tag.len() > MAX_TAG4 as usize || ops.len() > u32::MAX as usize {
        return false;
    }
    if !all_fit(ops) {
        return false;
    }
    let minorversion = compound.minorversion();
    let ident = compound.callback_ident();
    let mut out = Out::new(answer.alloc());
    if put_cb_compound(tag, minorversion, ident, ops, &mut out).is_err() {
        answer.want_memory();
    }
    out.bytes() == bytes
}

/// Why the operations stop, and whether all that say so agree.
fn put_stop(stop: Option<Stop>, agrees: bool, answer: &mut Answer) {
    match stop {
        Some(stop) => answer.debug(&stop),
        None => answer.word("None"),
    }
    answer.flag(agrees);
}

/// The operation at which they stop is read and not carried out: `stop` of the whole compound goes on behind it.
fn is_unserved(stop: Option<Stop>) -> bool {
    matches!(
        stop,
        Some(Stop::Unread(3 | 21 | 26 | 31 | 32 | 34 | 45 | 52 | 55))
    )
}

/// Why the operations of a compound stop, and whether a second look, `stop`, where all are carried out, and `rest` say
/// the same.
fn put_end(compound: &Compound<'_>, left: &mut Ops<'_>, answer: &mut Answer) {
    let stop = stop_of(left);
    let whole = compound.stop();
    let agrees = stop == stop_of(left)
        && (stop == Some(whole) || is_unserved(stop))
        && behind_stop(whole) == compound.rest();
    put_stop(stop, agrees, answer);
}

/// A compound: the tag, the minor version, the count and the operations, and why they stop; the verdict, and whether the
/// compound spells the bytes again.
fn put_read(compound: &Compound<'_>, bytes: &[u8], answer: &mut Answer) {
    answer.debug(&compound.tag());
    answer.number32(compound.minorversion());
    answer.number32(compound.count());
    let mut left = compound.ops();
    let ops = take_ops(compound.count(), &mut left, answer);
    answer.debug(&ops);
    put_end(compound, &mut left, answer);
    answer.state();
    put_verdict(judge_compound(bytes), answer);
    let is_spelled = is_spelled(compound, &ops, bytes, answer);
    answer.flag(is_spelled);
}

/// The compound that the bytes are, or where and why they are none.
pub fn put_compound_row(bytes: &[u8], answer: &mut Answer) {
    match Compound::read(bytes) {
        Ok(compound) => put_read(&compound, bytes, answer),
        Err(error) => {
            put_refusal(error, answer);
            answer.state();
            put_verdict(judge_compound(bytes), answer);
        }
    }
}

/// Why the operations of a callback compound stop, and whether a second look, `stop` and `rest` say the same.
fn put_cb_end(compound: &CbCompound<'_>, left: &mut CbOps<'_>, answer: &mut Answer) {
    let stop = stop_of(left);
    let whole = compound.stop();
    let agrees = stop == stop_of(left)
        && stop == Some(whole)
        && behind_stop(whole) == compound.rest();
    put_stop(stop, agrees, answer);
}

/// A callback compound, with its ident behind the minor version.
fn put_cb_read(compound: &CbCompound<'_>, bytes: &[u8], answer: &mut Answer) {
    answer.debug(&compound.tag());
    answer.number32(compound.minorversion());
    answer.number32(compound.callback_ident());
    answer.number32(compound.count());
    let mut left = compound.ops();
    let ops = take_ops(compound.count(), &mut left, answer);
    answer.debug(&ops);
    put_cb_end(compound, &mut left, answer);
    answer.state();
    put_verdict(judge_cb_compound(bytes), answer);
    let is_spelled = is_cb_spelled(compound, &ops, bytes, answer);
    answer.flag(is_spelled);
}

/// The same of a callback compound.
pub fn put_cb_compound_row(bytes: &[u8], answer: &mut Answer) {
    match CbCompound::read(bytes) {
        Ok(compound) => put_cb_read(&compound, bytes, answer),
        Err(error) => {
            put_refusal(error, answer);
            answer.state();
            put_verdict(judge_cb_compound(bytes), answer);
        }
    }
}
