//! A store over calls that are stopped amid their disks' work. `two NUMBER HEX HEX STEP ...` makes steps of the data server with a number,
//! on a disk and a spare that hold these bytes. STEP is `HEX`, a call as the record of it, or `HEX:AFTER:CHOICE`, one whose disks stop
//! behind AFTER calls of their own and crash by CHOICE, 0 to 3. The answer is `Ok`, a digit for each step, whether it was answered, or `-`
//! where there is none, and what the disks hold; or `BadLog` and the byte, or `BootsSpent`.

use crate::apply::Applied;
use row_words::{Answer, Part, RowFault, Words};
use std::alloc::Global;
use store_disk::MemoryDisk;
use store_trial::{StoreStep, TryEnd, TryFault, try_store};

/// The last choice of what a crash leaves.
const LAST_CHOICE: u32 = 3;

/// Where a call is stopped, and what the crash leaves.
#[derive(Clone, Copy)]
struct Stop {
    after: u64,
    choice: u32,
}

/// The record of a call, and where it is stopped.
#[derive(Drop)]
struct TriedCall {
    record: Vec<u8>,
    stop: Option<Stop>,
}

/// Where a call is stopped.
fn read_stop(words: &mut Words<'_>, text: &str) -> Stop {
    let (after, choice) = text.split_once(":").unwrap_or(("", ""));
    let stop = Stop {
        after: words.in64(after),
        choice: words.in32(choice),
    };
    if stop.choice > LAST_CHOICE {
        words.note(RowFault::Outside);
    }
    stop
}

/// The bytes of a record.
fn read_record(words: &mut Words<'_>, digits: &str) -> Vec<u8> {
    let mut item = Words::of(words.alloc(), digits);
    let record = item.bytes();
    words.behind(item);
    record
}

/// The step that a word says.
fn read_call(words: &mut Words<'_>, text: &str) -> TriedCall {
    match text.split_once(":") {
        None => TriedCall {
            record: read_record(words, text),
            stop: None,
        },
        Some((digits, stop)) => TriedCall {
            record: read_record(words, digits),
            stop: Some(read_stop(words, stop)),
        },
    }
}

/// The steps of a line.
fn read_calls(words: &mut Words<'_>) -> Vec<TriedCall> {
    let mut calls = Vec::new(words.alloc());
    if words.is_empty() {
        return calls;
    }
    for text in words.rest().split(' ') {
        let call = read_call(words, text);
        if calls.push(call).is_err() {
            words.note(RowFault::NoMemory);
        }
    }
    calls
}

/// The step of a call; none where the record is none of a call that is built.
fn store_step(tried: &TriedCall) -> Option<StoreStep<'_>> {
    let Applied { call, cred } = Applied::read(&tried.record)?;
    Some(match tried.stop {
        None => StoreStep::Call { call, cred },
        Some(stop) => StoreStep::Stopped {
            call,
            cred,
            after: stop.after,
            choice: stop.choice,
        },
    })
}

/// The steps of calls.
fn store_steps(alloc: Global, calls: &[TriedCall]) -> Result<Vec<StoreStep<'_>>, RowFault> {
    let mut steps = Vec::new(alloc);
    for tried in calls {
        let Some(step) = store_step(tried) else {
            return Err(RowFault::Outside);
        };
        if steps.push(step).is_err() {
            return Err(RowFault::NoMemory);
        }
    }
    Ok(steps)
}

/// Which steps were answered.
fn put_acked(acked: &[bool], answer: &mut Answer) {
    if acked.is_empty() {
        return answer.word("-");
    }
    answer.word("");
    for was in acked {
        answer.push(if *was { "1" } else { "0" });
    }
}

/// What the steps came to.
fn put_tried(tried: Result<TryEnd, TryFault>, answer: &mut Answer) {
    match tried {
        Ok(end) => {
            answer.word("Ok");
            put_acked(&end.acked, answer);
            answer.bytes(end.disk.bytes());
            answer.bytes(end.spare.bytes());
        }
        Err(TryFault::BadLog { place }) => {
            answer.word("BadLog");
            answer.number(place);
        }
        Err(TryFault::BootsSpent) => answer.word("BootsSpent"),
        Err(TryFault::NoMemory) => answer.want_memory(),
    }
}

/// Tries steps on disks that hold these bytes.
fn tried(
    alloc: Global,
    number: u32,
    disk: Vec<u8>,
    spare: Vec<u8>,
    steps: &[StoreStep<'_>],
) -> Result<TryEnd, TryFault> {
    let disk = MemoryDisk::new(alloc, disk, Vec::new(alloc))?;
    let spare = MemoryDisk::new(alloc, spare, Vec::new(alloc))?;
    try_store(alloc, number, disk, spare, steps)
}

/// Tries the steps of a line.
fn put_trial(words: &mut Words<'_>, answer: &mut Answer) {
    let number = words.number32();
    let disk = words.bytes();
    let spare = words.bytes();
    let calls = read_calls(words);
    if !words.end() {
        return;
    }
    match store_steps(answer.alloc(), &calls) {
        Ok(steps) => put_tried(tried(answer.alloc(), number, disk, spare, &steps), answer),
        Err(fault) => answer.note(fault),
    }
}

/// Nothing is kept from line to line.
#[derive(Drop)]
pub struct TryStoreRows;

impl Part for TryStoreRows {
    fn call(&mut self, words: &mut Words<'_>, answer: &mut Answer) {
        match words.word() {
            "two" => put_trial(words, answer),
            _ => answer.refuse(),
        }
    }
}
