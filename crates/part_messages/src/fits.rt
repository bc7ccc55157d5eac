//! Values that no bytes need spell, and whether they have a spelling.

use ff_xdr::{Items, Out, Wire};
use nfs4_compound::OpRes;
use nfs4_compound::nfs4_unserved_ops::UnservedRes;
use nfs4_file_ops::{GetDeviceInfoRes, LayoutGetRes};
use nfs4_types::{OpResult, Stat4};
use row_words::{Answer, RowFault, Words};

/// A status by its number.
fn status(words: &mut Words<'_>) -> Stat4 {
    match Stat4::of_number(words.number32()) {
        Some(status) => status,
        None => words.outside(Stat4::Ok),
    }
}

/// Numbers with commas between them.
fn numbers(words: &mut Words<'_>) -> Vec<u32> {
    let mut numbers = Vec::new(words.alloc());
    for digits in words.word().split(',') {
        if numbers.push(words.in32(digits)).is_err() {
            words.note(RowFault::NoMemory);
        }
    }
    numbers
}

/// The spelling of a list, where it has one with at most so many.
fn put_spelled(numbers: &[u32], max: u32, answer: &mut Answer) {
    if numbers.len() > u32::MAX as usize {
        return answer.refuse();
    }
    let list = Items::made(numbers);
    if !list.fits(max) {
        return answer.word("None");
    }
    let mut out = Out::new(answer.alloc());
    if list.put(&mut out).is_err() {
        answer.want_memory();
    }
    answer.word("Some");
    answer.bytes(out.bytes());
}

/// `list MAX NUMBERS`: what a list of these numbers spells, where it has a spelling with at most so many.
pub fn put_list(words: &mut Words<'_>, answer: &mut Answer) {
    let max = words.number32();
    let numbers = numbers(words);
    if words.end() {
        put_spelled(&numbers, max, answer);
    }
}

/// The result of an operation that was refused so.
fn refused<'a>(operation: &str, number: u32, status: Stat4) -> Option<OpRes<'a>> {
    match operation {
        "lookup" => Some(OpRes::Lookup(OpResult::Refused(status))),
        "layout_get" => Some(OpRes::LayoutGet(LayoutGetRes::Refused(status))),
        "get_device_info" => Some(OpRes::GetDeviceInfo(GetDeviceInfoRes::Refused(status))),
        "unbuilt" => Some(OpRes::Unserved(UnservedRes::Unbuilt(number, status))),
        _ => None,
    }
}

/// `result_fits OPERATION STATUS`, of `unbuilt` with the operation's number before the status: whether a result that was
/// refused so has a spelling.
pub fn put_result_fits(words: &mut Words<'_>, answer: &mut Answer) {
    let operation = words.word();
    let number = if operation == "unbuilt" {
        words.number32()
    } else {
        0
    };
    let status = status(words);
    if !words.end() {
        return;
    }
    match refused(operation, number, status) {
        Some(result) => answer.flag(result.fits()),
        None => answer.refuse(),
    }
}
