//! Calls on a log that is open.

ghost use Rattle.std.specs.Prelude.{◌≡◌, ◌<◌, ◌^◌, length, true};

use row_words::{Answer, RowFault, Words};
use std::alloc::Global;
use store_disk::MemoryDisk;
use twin_log::{GateLog, LogError};

/// The longest body.
const MAX_BODY: usize = 0xffff_ffff;

/// A log over disks in memory.
pub type Log = GateLog<MemoryDisk>;

/// Why a call was not done.
fn put_error(error: LogError, answer: &mut Answer) {
    match error {
        LogError::Disk => answer.word("Disk"),
        LogError::Broken => answer.word("Broken"),
        LogError::NoMemory => answer.want_memory(),
    }
}

/// Answers why a call was not done; says whether it was.
fn is_done(went: Result<(), LogError>, answer: &mut Answer) -> bool {
    match went {
        Ok(()) => true,
        Err(error) => {
            put_error(error, answer);
            false
        }
    }
}

/// A body is not longer than its length can say.
fn is_short(body: &[u8]) -> bool
    ensures { result ≡ true → length body.now < 2 ^ 32 }
{
    body.len() <= MAX_BODY
}

/// Appends a body. Like the next four it answers why not where it does not, and says whether it does.
fn append(log: &mut Log, body: &[u8], answer: &mut Answer) -> bool {
    if !log.may_append() {
        answer.refuse();
        return false;
    }
    if !is_short(body) {
        answer.refuse();
        return false;
    }
    is_done(log.append(body), answer)
}

/// Begins a renewal.
fn begin(log: &mut Log, answer: &mut Answer) -> bool {
    if !log.may_begin() {
        answer.refuse();
        return false;
    }
    is_done(log.begin(), answer)
}

/// Puts a body into the new log.
fn put(log: &mut Log, body: &[u8], answer: &mut Answer) -> bool {
    if !log.may_put() {
        answer.refuse();
        return false;
    }
    if !is_short(body) {
        answer.refuse();
        return false;
    }
    is_done(log.put(body), answer)
}

/// Ends a renewal.
fn end(log: &mut Log, answer: &mut Answer) -> bool {
    if !log.may_put() {
        answer.refuse();
        return false;
    }
    is_done(log.end(), answer)
}

/// Begins a renewal, puts these bodies, and ends it.
fn renew(log: &mut Log, bodies: &[Vec<u8>], answer: &mut Answer) -> bool {
    if !begin(log, answer) {
        return false;
    }
    for body in bodies {
        if !put(log, body, answer) {
            return false;
        }
    }
    end(log, answer)
}

/// Answers a call that was done.
fn put_done(is_done: bool, answer: &mut Answer) {
    if is_done {
        answer.word("Ok");
    }
}

/// The next body.
pub fn put_body(log: &mut Log, words: &mut Words<'_>, answer: &mut Answer) {
    if !words.end() {
        return;
    }
    let mut body = Vec::new(answer.alloc());
    match log.body(&mut body) {
        Ok(true) => {
            answer.word("Some");
            answer.bytes(&body);
        }
        Ok(false) => answer.word("None"),
        Err(error) => put_error(error, answer),
    }
}

/// The generation.
pub fn put_generation(log: &Log, words: &mut Words<'_>, answer: &mut Answer) {
    if !words.end() {
        return;
    }
    match log.generation() {
        None => answer.word("None"),
        Some(generation) => {
            answer.word("Some");
            answer.number(generation);
        }
    }
}

/// A number of the log.
pub fn put_number(number: u64, words: &mut Words<'_>, answer: &mut Answer) {
    if words.end() {
        answer.number(number);
    }
}

/// Appends a body.
pub fn put_append(log: &mut Log, words: &mut Words<'_>, answer: &mut Answer) {
    let body = words.bytes();
    if words.end() {
        let is_done = append(log, &body, answer);
        put_done(is_done, answer);
    }
}

/// Begins a renewal.
pub fn put_begin(log: &mut Log, words: &mut Words<'_>, answer: &mut Answer) {
    if words.end() {
        let is_done = begin(log, answer);
        put_done(is_done, answer);
    }
}

/// Puts a body into the new log.
pub fn put_put(log: &mut Log, words: &mut Words<'_>, answer: &mut Answer) {
    let body = words.bytes();
    if words.end() {
        let is_done = put(log, &body, answer);
        put_done(is_done, answer);
    }
}

/// Ends a renewal.
pub fn put_end(log: &mut Log, words: &mut Words<'_>, answer: &mut Answer) {
    if words.end() {
        let is_done = end(log, answer);
        put_done(is_done, answer);
    }
}

/// The bodies that the words left say.
fn read_bodies(words: &mut Words<'_>) -> Vec<Vec<u8>> {
    let mut bodies = Vec::new(words.alloc());
    if words.is_empty() {
        return bodies;
    }
    for text in words.rest().split(' ') {
        let mut item = Words::of(words.alloc(), text);
        if bodies.push(item.bytes()).is_err() {
            words.note(RowFault::NoMemory);
        }
        words.behind(item);
    }
    bodies
}

/// Renews the log.
pub fn put_renew(log: &mut Log, words: &mut Words<'_>, answer: &mut Answer) {
    let bodies = read_bodies(words);
    if words.end() {
        let is_done = renew(log, &bodies, answer);
        put_done(is_done, answer);
    }
}

/// All bodies that are left. A body has at least five bytes of its file.
fn bodies_of(alloc: Global, log: &mut Log) -> Result<Vec<Vec<u8>>, LogError> {
    let mut bodies = Vec::new(alloc);
    for _ in 0..log.length() {
        let mut body = Vec::new(alloc);
        if !log.body(&mut body)? {
            return Ok(bodies);
        }
        if bodies.push(body).is_err() {
            return Err(LogError::NoMemory);
        }
    }
    Ok(bodies)
}

/// The generation, and these bodies.
fn put_bodies(generation: Option<u64>, bodies: &[Vec<u8>], answer: &mut Answer) {
    answer.word("Ok");
    match generation {
        None => answer.word("-"),
        Some(generation) => answer.number(generation),
    }
    answer.number(bodies.len() as u64);
    for body in bodies {
        answer.bytes(body);
    }
}

/// What a log says that was opened just now.
pub fn put_log(log: &mut Log, answer: &mut Answer) {
    match bodies_of(answer.alloc(), log) {
        Ok(bodies) => put_bodies(log.generation(), &bodies, answer),
        Err(error) => put_error(error, answer),
    }
}
