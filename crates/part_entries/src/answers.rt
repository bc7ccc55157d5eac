//! What clients answer to their users.

use crate::events::{read_client, read_data};
use crate::files::read_file;
use cluster_model::{Entry, FailCause, UserAnswer};
use row_words::Words;

/// Why a request was not done.
fn read_why(words: &mut Words<'_>) -> FailCause {
    match words.word() {
        "revoked" => FailCause::Revoked,
        "allmirrors" => FailCause::AllMirrors,
        "refused" => FailCause::Refused(words.number32()),
        _ => words.outside(FailCause::Revoked),
    }
}

/// Bytes that were read, and whether the file ends behind them.
fn read_bytes(words: &mut Words<'_>) -> UserAnswer {
    UserAnswer::Bytes {
        eof: words.flag(),
        bytes: read_data(words),
    }
}

/// What a client answers.
fn read_answer(words: &mut Words<'_>) -> UserAnswer {
    match words.word() {
        "opened" => UserAnswer::Opened(read_file(words)),
        "written" => UserAnswer::Written,
        "committed" => UserAnswer::Committed {
            writes: words.number32(),
        },
        "bytes" => read_bytes(words),
        "returned" => UserAnswer::Returned,
        "failed" => UserAnswer::Failed(read_why(words)),
        _ => words.outside(UserAnswer::Written),
    }
}

pub fn read_user_answer(words: &mut Words<'_>) -> Entry {
    Entry::Answer {
        client: read_client(words),
        answer: read_answer(words),
    }
}
