//! Calls and answers of the parts as rows of words, one a line: numbers are decimal, bytes hexadecimal, and `-` is an
//! option that is not there.
#![tactic(auto)]

mod answer;
mod calls;
mod fault;
mod mirrors;
mod numbers;
mod part;
mod pieces;
mod words;

pub use answer::Answer;
pub use fault::RowFault;
pub use numbers::{number32, number64};
pub use part::{Part, put_answer};
pub use words::Words;
