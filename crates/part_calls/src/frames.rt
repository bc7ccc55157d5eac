//! Records out of a stream that comes in pieces.

use ff_xdr::Out;
use row_words::{Answer, Part, Words};
use rpc_record::{Frames, MAX_RECORD, RecordFault, put_record};
use std::alloc::Global;

/// A stream of which the records are gathered.
#[derive(Drop)]
pub struct FramesRows {
    alloc: Global,
    frames: Frames,
}

/// How many bytes were taken, or why the stream is refused.
fn put_fed(fed: Result<usize, RecordFault>, answer: &mut Answer) {
    match fed {
        Ok(count) => {
            answer.word("Ok");
            answer.number(count as u64);
        }
        Err(RecordFault::TooLong) => answer.word("TooLong"),
        Err(RecordFault::TooManyFragments) => answer.word("TooManyFragments"),
        Err(RecordFault::NoMemory) => answer.want_memory(),
    }
}

/// A record that was taken out.
fn put_taken(taken: Option<Vec<u8>>, answer: &mut Answer) {
    match taken {
        Some(record) => {
            answer.word("Some");
            answer.bytes(record.as_slice());
        }
        None => answer.word("None"),
    }
}

/// The record is taken out, and no further one.
fn is_taken(frames: &mut Frames, record: &[u8]) -> bool {
    match frames.take() {
        Some(taken) => taken.as_slice() == record && frames.take().is_none(),
        None => false,
    }
}

/// Two pieces are taken whole, and give the record and nothing else.
fn is_given(alloc: Global, first: &[u8], second: &[u8], record: &[u8]) -> bool {
    let mut frames = Frames::new(alloc);
    let fed = frames.feed(first) == Ok(first.len()) && frames.feed(second) == Ok(second.len());
    fed && is_taken(&mut frames, record)
}

/// The stream byte by byte gives the record behind its last byte, and nothing before.
fn is_given_by_bytes(alloc: Global, stream: &[u8], record: &[u8]) -> bool {
    let mut frames = Frames::new(alloc);
    for byte in stream {
        if frames.take().is_some() || frames.feed(&[*byte]) != Ok(1) {
            return false;
        }
    }
    is_taken(&mut frames, record)
}

/// The first place of a cut in two where the stream does not give the record and nothing else.
fn first_missed(alloc: Global, stream: &[u8], record: &[u8]) -> Option<usize> {
    for place in 0..=stream.len() {
        let (first, second) = stream.split_at(place);
        if !is_given(alloc, first, second, record) {
            return Some(place);
        }
    }
    None
}

/// `cut STREAM RECORD`: `Ok` where the stream gives the record and nothing else, cut in two anywhere and cut in single
/// bytes; else the first place of a cut where it does not, or `bytes`.
fn put_cut(words: &mut Words<'_>, answer: &mut Answer) {
    let stream = words.bytes();
    let record = words.bytes();
    if !words.end() {
        return;
    }
    if let Some(place) = first_missed(answer.alloc(), &stream, &record) {
        return answer.number(place as u64);
    }
    let by_bytes = is_given_by_bytes(answer.alloc(), &stream, &record);
    answer.word(if by_bytes { "Ok" } else { "bytes" });
}

/// A message as a record, its header first.
fn put_framed(message: &[u8], answer: &mut Answer) {
    if message.len() > MAX_RECORD {
        return answer.refuse();
    }
    let mut out = Out::new(answer.alloc());
    match put_record(message, &mut out) {
        Ok(()) => answer.bytes(out.bytes()),
        Err(_) => answer.want_memory(),
    }
}

/// `put HEX`: the message as a record.
fn put_message(words: &mut Words<'_>, answer: &mut Answer) {
    let message = words.bytes();
    if words.end() {
        put_framed(message.as_slice(), answer);
    }
}

/// Feeds the same bytes so many times, or until they are refused; answers what the last came to.
fn fed_often(frames: &mut Frames, piece: &[u8], count: u32) -> Result<usize, RecordFault> {
    let mut fed = Ok(0);
    for _ in 0..count {
        fed = frames.feed(piece);
        if fed.is_err() {
            break;
        }
    }
    fed
}

impl FramesRows {
    /// A stream of which nothing came; takes no memory.
    pub fn new(alloc: Global) -> FramesRows {
        FramesRows {
            alloc,
            frames: Frames::new(alloc),
        }
    }

    /// `new`: nothing came.
    fn clear(&mut self, words: &mut Words<'_>, answer: &mut Answer) {
        if words.end() {
            self.frames = Frames::new(self.alloc);
            answer.word("Ok");
        }
    }

    /// `feed HEX`: the next bytes of the stream.
    fn feed(&mut self, words: &mut Words<'_>, answer: &mut Answer) {
        let piece = words.bytes();
        if words.end() {
            put_fed(self.frames.feed(piece.as_slice()), answer);
        }
    }

    /// `repeat N HEX`: the same bytes so many times, or until they are refused; answered by the last.
    fn repeat(&mut self, words: &mut Words<'_>, answer: &mut Answer) {
        let count = words.number32();
        let piece = words.bytes();
        if words.end() {
            put_fed(fed_often(&mut self.frames, &piece, count), answer);
        }
    }

    /// `take`: the next record.
    fn take(&mut self, words: &mut Words<'_>, answer: &mut Answer) {
        if words.end() {
            put_taken(self.frames.take(), answer);
        }
    }
}

impl Part for FramesRows {
    fn call(&mut self, words: &mut Words<'_>, answer: &mut Answer) {
        match words.word() {
            "new" => self.clear(words, answer),
            "feed" => self.feed(words, answer),
            "repeat" => self.repeat(words, answer),
            "take" => self.take(words, answer),
            "cut" => put_cut(words, answer),
            "put" => put_message(words, answer),
            _ => answer.refuse(),
        }
    }
}
