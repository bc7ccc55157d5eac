//! Entries of mirrors.

use crate::events::read_data;
use crate::files::read_file;
use crate::lists::read_mirror_ids;
use cluster_model::Entry;
use row_words::Words;

pub fn read_left(words: &mut Words<'_>) -> Entry {
    Entry::Left {
        file: read_file(words),
        mirror: words.mirror_id(),
        cause: words.left_cause(),
    }
}

pub fn read_swapped(words: &mut Words<'_>) -> Entry {
    Entry::Swapped {
        file: read_file(words),
        old: words.mirror_id_option(),
        new: words.mirror_id(),
    }
}

pub fn read_fenced(words: &mut Words<'_>) -> Entry {
    Entry::Fenced {
        file: read_file(words),
        old: words.cred(),
        new: words.cred(),
        live: read_mirror_ids(words),
    }
}

pub fn read_free(words: &mut Words<'_>) -> Entry {
    Entry::Free {
        file: read_file(words),
        live: read_mirror_ids(words),
    }
}

pub fn read_applied(words: &mut Words<'_>) -> Entry {
    Entry::Applied {
        mirror: words.mirror_id(),
        cred: words.cred(),
        at: words.number64(),
        bytes: read_data(words),
    }
}

pub fn read_committed(words: &mut Words<'_>) -> Entry {
    Entry::Committed {
        mirror: words.mirror_id(),
    }
}

pub fn read_owner(words: &mut Words<'_>) -> Entry {
    Entry::Owner {
        mirror: words.mirror_id(),
        cred: words.cred(),
    }
}

pub fn read_failed(words: &mut Words<'_>) -> Entry {
    Entry::Failed {
        mirror: words.mirror_id(),
        xid: words.number32(),
    }
}

/// What a mirror shows.
pub fn read_audit(words: &mut Words<'_>) -> Entry {
    Entry::Audit {
        file: read_file(words),
        mirror: words.mirror_id(),
        length: words.number64(),
        bytes: read_data(words),
    }
}
