//! Pieces of pending writes.

use crate::fault::RowFault;
use crate::words::Words;
use cluster_model::Piece;

impl Words<'_> {
    /// `2:0:0:3`: the fileid, the write's place, and the first byte and how many.
    fn piece(&mut self) -> Piece {
        Piece {
            fileid: self.number64_before(":"),
            index: self.number32_before(":"),
            from: self.number32_before(":"),
            count: self.number32(),
        }
    }

    /// Pieces of pending writes with commas between them; `-` is none.
    pub fn pieces(&mut self) -> Vec<Piece> {
        let mut pieces = Vec::new(self.alloc());
        if self.is_none() {
            return pieces;
        }
        for text in self.word().split(',') {
            let mut item = Words::of(self.alloc(), text);
            if pieces.push(item.piece()).is_err() {
                self.note(RowFault::NoMemory);
            }
            self.behind(item);
        }
        pieces
    }
}
