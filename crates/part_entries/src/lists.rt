//! Lists of mirrors and of pieces, with commas between two; `-` is none.

use cluster_model::{MirrorIds, Pieces};
use row_words::{RowFault, Words};

/// Mirrors by their two numbers.
pub fn read_mirror_ids(words: &mut Words<'_>) -> MirrorIds {
    let mut ids = Vec::new(words.alloc());
    if words.is_none() {
        return MirrorIds::from_vec(ids);
    }
    for text in words.word().split(',') {
        let mut item = Words::of(words.alloc(), text);
        if ids.push(item.mirror_id()).is_err() {
            words.note(RowFault::NoMemory);
        }
        words.behind(item);
    }
    MirrorIds::from_vec(ids)
}

/// Pieces of pending writes.
pub fn read_pieces(words: &mut Words<'_>) -> Pieces {
    Pieces::from_vec(words.pieces())
}
