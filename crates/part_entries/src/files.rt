//! Entries of files at the metadata server and at their holders.

use crate::events::read_data;
use cluster_model::{Entry, FileId};
use row_words::Words;

/// What is said of a write of a holder.
#[derive(Clone, Copy)]
pub enum Write {
    Sent,
    Rogue,
    Told,
}

/// A file by its number.
pub fn read_file(words: &mut Words<'_>) -> FileId {
    FileId(words.number32())
}

pub fn read_granted(words: &mut Words<'_>) -> Entry {
    Entry::Granted {
        file: read_file(words),
        cred: words.cred(),
        holder: words.node(),
    }
}

pub fn read_write(what: Write, words: &mut Words<'_>) -> Entry {
    let file = read_file(words);
    let cred = words.cred();
    let at = words.number64();
    let bytes = read_data(words);
    match what {
        Write::Sent => Entry::Sent {
            file,
            cred,
            at,
            bytes,
        },
        Write::Rogue => Entry::Rogue {
            file,
            cred,
            at,
            bytes,
        },
        Write::Told => Entry::Told {
            file,
            cred,
            at,
            bytes,
        },
    }
}

pub fn read_ended(words: &mut Words<'_>) -> Entry {
    Entry::Ended {
        file: read_file(words),
        cred: words.cred(),
        cause: words.end_cause(),
    }
}

/// A READ that the metadata server answered.
pub fn read_answered(words: &mut Words<'_>) -> Entry {
    Entry::ReadAnswer {
        file: read_file(words),
        status: words.number32(),
        bytes: read_data(words),
    }
}

pub fn read_later(words: &mut Words<'_>) -> Entry {
    Entry::Later {
        file: read_file(words),
        phase: words.phase(),
    }
}
