//! What the program prints of a text.

use crate::program::{Ended, Over, ran};
use row_words::RowFault;
use std::alloc::Global;

/// Appends how a run ended, where it did not end well: `status`, its number and its note.
fn push_end(ended: &Ended, alloc: Global, text: &mut Vec<u8>) -> Result<(), RowFault> {
    let status = ended.status;
    if status == 0 {
        return Ok(());
    }
    let line = format!(in alloc; "status {status}")?;
    text.extend_from_slice(line.as_bytes())?;
    match ended.notes.bytes() {
        [] => text.push(b'\n')?,
        note => {
            text.push(b' ')?;
            text.extend_from_slice(note)?;
        }
    }
    Ok(())
}

/// What a command of these words prints of a text, and how it ended where it did not end well.
fn printed(alloc: Global, words: &[&str], text: &[u8]) -> Result<Vec<u8>, RowFault> {
    let mut said = Vec::new(alloc);
    for word in words {
        said.push(String::from_str(alloc, word)?)?;
    }
    let text = text.to_vec(alloc)?;
    let ended = ran(alloc, Over::source(alloc, said, text))?;
    let mut bytes = ended.sink.bytes().to_vec(alloc)?;
    push_end(&ended, alloc, &mut bytes)?;
    Ok(bytes)
}

/// What `replay` prints of a script. Behind it stands a line `status N`, with the note if there is one, where the run did
/// not end with 0.
pub fn replayed(alloc: Global, script: &[u8]) -> Result<Vec<u8>, RowFault> {
    printed(alloc, &["replay"], script)
}

/// What `replay brief` prints of a script, with the same line behind it.
pub fn briefly(alloc: Global, script: &[u8]) -> Result<Vec<u8>, RowFault> {
    printed(alloc, &["replay", "brief"], script)
}

/// What `show` prints of records, with the same line behind it.
pub fn shown(alloc: Global, records: &[u8]) -> Result<Vec<u8>, RowFault> {
    printed(alloc, &["show"], records)
}
