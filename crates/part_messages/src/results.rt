//! The results of compounds and of callback compounds.

use crate::asked::all_fit;
use crate::show::put_refusal;
use ff_xdr::{Array, Out, Wire};
use nfs4_compound::{CbRes, MAX_TAG4, OpRes, Tag4, put_cb_results, put_results};
use nfs4_types::Stat4;
use row_words::Answer;
use std::fmt;

/// The result of a compound (RFC 8881, section 16.2.3).
type Results<'a> = (Stat4, Tag4<'a>, Array<'a, OpRes<'a>, { u32::MAX }>);

/// The result of a callback compound (RFC 8881, section 20.2.3).
type CbResults<'a> = (Stat4, Tag4<'a>, Array<'a, CbRes, { u32::MAX }>);

/// A compound's status, tag and results.
fn put_parts<R: fmt::Debug>(status: Stat4, tag: &str, results: &Vec<R>, answer: &mut Answer) {
    answer.debug(&status);
    answer.debug(&tag);
    answer.debug(results);
    answer.state();
}

/// Results, one after the other.
fn listed<'a, R: Wire<'a> + Copy>(
    results: &Array<'a, R, { u32::MAX }>,
    answer: &mut Answer,
) -> Vec<R> {
    let mut list = Vec::new(answer.alloc());
    for result in results.items.items() {
        if list.push(result).is_err() {
            answer.want_memory();
        }
    }
    list
}

/// A compound of these results spells these bytes.
fn is_spelled(
    status: Stat4,
    tag: &str,
    results: &[OpRes<'_>],
    bytes: &[u8],
    answer: &mut Answer,
) -> bool {
    if tag.len() > MAX_TAG4 as usize || results.len() > u32::MAX as usize {
        return false;
    }
    if !all_fit(results) {
        return false;
    }
    let mut out = Out::new(answer.alloc());
    if put_results(status, tag, results, &mut out).is_err() {
        answer.want_memory();
    }
    out.bytes() == bytes
}

/// The same of a callback compound.
fn is_cb_spelled(
    status: Stat4,
    tag: &str,
    results: &[CbRes],
    bytes: &[u8],
    answer: &mut Answer,
) -> bool {
    if tag.len() > MAX_TAG4 as usize || results.len() > u32::MAX as usize {
        return false;
    }
    if !all_fit(results) {
        return false;
    }
    let mut out = Out::new(answer.alloc());
    if put_cb_results(status, tag, results, &mut out).is_err() {
        answer.want_memory();
    }
    out.bytes() == bytes
}

/// The result of a compound, and whether it spells the bytes again.
pub fn put_results_row(bytes: &[u8], answer: &mut Answer) {
    match Results::from_bytes(bytes) {
        Ok((status, tag, results)) => {
            let results = listed(&results, answer);
            put_parts(status, tag.text, &results, answer);
            let is_spelled = is_spelled(status, tag.text, &results, bytes, answer);
            answer.flag(is_spelled);
        }
        Err(error) => put_refusal(error, answer),
    }
}

/// The same of a callback compound.
pub fn put_cb_results_row(bytes: &[u8], answer: &mut Answer) {
    match CbResults::from_bytes(bytes) {
        Ok((status, tag, results)) => {
            let results = listed(&results, answer);
            put_parts(status, tag.text, &results, answer);
            let is_spelled = is_cb_spelled(status, tag.text, &results, bytes, answer);
            answer.flag(is_spelled);
        }
        Err(error) => put_refusal(error, answer),
    }
}
