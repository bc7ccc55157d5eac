//! What of the pending writes reaches the disk before a restart.

ghost use Rattle.std.specs.Prelude.{◌≡◌};

use std::marker::Model;

/// A part of a pending write: `count` of its bytes, from its byte `from` on.
#[derive(Clone, Copy, Debug, PartialEq, Eq)]
pub struct Piece {
    /// The file that the write is of.
    pub fileid: u64,
    /// The write's place among the file's pending ones, from 0.
    pub index: u32,
    pub from: u32,
    pub count: u32,
}

/// A list of pieces, in the order in which they reach the disk.
#[derive(Debug, Drop)]
pub struct Pieces {
    pieces: Vec<Piece>,
}

impl Model for Pieces {
    ghost use Rattle.std.specs.Prelude.{List};
    ghost use Rattle.cluster_model.specs.declared.piece.Piece.{Piece};

    ghost Value = { List Piece };

    ghost view = { λ p. p.pieces.items };
}

impl Pieces {
    /// The vector's pieces; takes no memory.
    pub fn from_vec(pieces: Vec<Piece>) -> Pieces
        ensures { result ≡ pieces.items }
    {
        Pieces { pieces }
    }

    /// The pieces, in order.
    pub fn as_slice(&self) -> &[Piece]
        ensures { result.now ≡ self.now }
    {
        self.pieces.as_slice()
    }
}
