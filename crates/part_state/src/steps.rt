//! What several parts answer in the same words.

use cluster_model::{DsCall, MirrorId};
use mirror_writer::WriterStep;
use row_words::Answer;

/// The call that goes out next, and to which mirror.
pub fn put_next(next: Option<(MirrorId, DsCall<'_>)>, answer: &mut Answer) {
    match next {
        None => answer.word("None"),
        Some((id, call)) => {
            answer.word("Some");
            answer.mirror_id(id);
            answer.ds_call(&call);
        }
    }
}

/// What an answer or a timeout came to at a writer.
pub fn put_writer_step(step: WriterStep, answer: &mut Answer) {
    match step {
        WriterStep::Stranger => answer.word("Stranger"),
        WriterStep::Waiting => answer.word("Waiting"),
        WriterStep::Failed { id, cause } => {
            answer.word("Failed");
            answer.mirror_id(id);
            answer.left_cause(cause);
        }
        WriterStep::Fenced { id, status } => {
            answer.word("Fenced");
            answer.mirror_id(id);
            answer.number32(status);
        }
        WriterStep::Committed => answer.word("Committed"),
    }
}
