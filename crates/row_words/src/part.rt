//! What a part is to whoever plays rows.

use crate::answer::Answer;
use crate::fault::RowFault;
use crate::words::Words;
use std::alloc::Global;

/// A part on which calls are made, one a line.
pub trait Part {
    /// Makes the call that the words say, and appends its answer. Where the line is outside its form, or what the call
    /// asks of its caller does not hold, nothing is done, and the words or the answer have noted it.
    fn call(&mut self, words: &mut Words<'_>, answer: &mut Answer);
}

/// Plays a line: the answer is that of its call, or `?` where there is none.
pub fn put_answer<P: Part>(alloc: Global, part: &mut P, line: &str) -> Result<String, RowFault> {
    let mut words = Words::of(alloc, line);
    let mut answer = Answer::new(alloc);
    part.call(&mut words, &mut answer);
    let answered = match words.fault() {
        None => answer.into_text(),
        Some(fault) => Err(fault),
    };
    match answered {
        Err(RowFault::Outside) => Ok(String::from_str(alloc, "?")?),
        _ => answered,
    }
}
