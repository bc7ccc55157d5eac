//! How values and refusals are answered.

use ff_xdr::XdrError;
use row_words::Answer;
use std::fmt;

/// A value, and whether it spells the bytes again that it was read from.
pub fn put_value<T: fmt::Debug>(value: &T, is_spelled: bool, answer: &mut Answer) {
    answer.debug(value);
    answer.state();
    answer.flag(is_spelled);
}

/// Where bytes are refused, and why.
pub fn put_place(error: XdrError, answer: &mut Answer) {
    answer.number(error.place as u64);
    answer.debug(&error.why);
}

/// A refusal.
pub fn put_refusal(error: XdrError, answer: &mut Answer) {
    answer.word("Err");
    put_place(error, answer);
}

/// What bytes are judged to be.
pub fn put_verdict(verdict: Result<(), XdrError>, answer: &mut Answer) {
    match verdict {
        Ok(()) => answer.word("Ok"),
        Err(error) => put_refusal(error, answer),
    }
}
