//! Pieces of pending writes, as text.

ghost use Rattle.std.specs.Prelude.{◌≡◌, ◌≤◌, ◌<◌, ◌∷◌, [], ◌++◌, length, IfOk, IfSome, IfNone, is_some};
ghost use Rattle.ff_script.specs.Pieces.{decimal_value, decimal_at, parts, piece_from, piece_at, pieces_at, listed};

use cluster_model::Piece;
use ff_xdr::NoMemory;
use itoa::Buffer;
use memchr::memchr;
use std::alloc::Global;
use std::marker::Model;

/// A number of a piece has at most so many digits.
pub const DIGITS: usize = 10;

/// What digits come to.
fn decimal_value(text: &[u8]) -> u64
    requires { length text.now ≤ DIGITS }
    ensures { result ≡ decimal_value 0 text.now }
{
    let mut value = 0;
    for c in text {
        value = value * 10 + u64::from(c.saturating_sub(b'0'));
    }
    value
}

/// The number of which the text is the decimal, if there is one.
pub fn decimal_at(text: &[u8]) -> Option<u32>
    ensures { result ≡ decimal_at text.now }
{
    if text.len() > DIGITS {
        return None;
    }
    let number = u32::try_from(decimal_value(text)).ok()?;
    let mut buffer = Buffer::new();
    (buffer.format(number).as_bytes() == text).then_some(number)
}

/// What stands before the first separator, and what behind it. `None` is a text with no separator.
pub fn cut(sep: u8, text: &[u8]) -> Option<(&[u8], &[u8])>
    ensures cut { IfSome result (λ p. parts sep text.now ≡ p.0.now ∷ parts sep p.1.now) }
    ensures less { IfSome result (λ p. length p.1.now < length text.now) }
    ensures whole { IfNone result (parts sep text.now ≡ text.now ∷ []) }
{
    let at = memchr(sep, text)?;
    Some((&text[..at], &text[at + 1..]))
}

/// The piece of four numbers, if all are numbers.
fn piece_from(file: &[u8], index: &[u8], from: &[u8], count: &[u8]) -> Option<Piece>
    ensures { result ≡ piece_from (file.now ∷ index.now ∷ from.now ∷ count.now ∷ []) }
{
    Some(Piece {
        fileid: u64::from(decimal_at(file)?),
        index: decimal_at(index)?,
        from: decimal_at(from)?,
        count: decimal_at(count)?,
    })
}

/// The piece that a text spells: four numbers with colons between.
fn piece_at(text: &[u8]) -> Option<Piece>
    ensures { result ≡ piece_at text.now }
{
    let (file, behind_file) = cut(b':', text)?;
    let (index, behind_index) = cut(b':', behind_file)?;
    let (from, count) = cut(b':', behind_index)?;
    if cut(b':', count).is_some() {
        return None;
    }
    piece_from(file, index, from, count)
}

/// The text spells one piece or more.
fn are_pieces(text: &[u8]) -> bool
    ensures { result ≡ is_some (pieces_at text.now) }
{
    let mut rest = text;
    while let Some((part, behind)) = cut(b',', rest) {
        if piece_at(part).is_none() {
            return false;
        }
        rest = behind;
    }
    piece_at(rest).is_some()
}

/// Puts the piece that a text spells behind the pieces, if it spells one.
fn push(text: &[u8], pieces: &mut Vec<Piece>) -> Result<(), NoMemory>
    ensures { IfOk result (λ _. pieces.new.items ≡ pieces.old.items ++ listed (piece_at text.now)) }
{
    match piece_at(text) {
        Some(piece) => pieces.push(piece).map_err(|_| NoMemory),
        None => Ok(()),
    }
}

/// Pieces that a text spells, still as text, which was checked. Clauses see them as a list.
#[derive(Debug, Drop)]
pub struct PieceList<'a> {
    // no text is no pieces
    text: &'a [u8],
}

impl<'a> Model for PieceList<'a> {
    ghost use Rattle.std.specs.Prelude.{List, []};
    ghost use Rattle.cluster_model.specs.declared.piece.Piece.{Piece};
    ghost use Rattle.ff_script.specs.Pieces.{spelled_pieces, SpellsPieces};

    ghost Value = { List Piece };

    ghost view = { λ p. spelled_pieces p.text.now };

    ghost invariant = { λ p. SpellsPieces p.text.now };
}

impl<'a> PieceList<'a> {
    /// No pieces.
    pub fn none() -> PieceList<'a>
        ensures { result ≡ [] }
    {
        PieceList { text: b"" }
    }

    /// The pieces that the text spells: one or more, with commas between. `None` for any other text.
    /// Takes no memory.
    pub fn read(text: &'a [u8]) -> Option<PieceList<'a>>
        ensures { result ≡ pieces_at text.now }
    {
        if !are_pieces(text) {
            return None;
        }
        Some(PieceList { text })
    }

    /// The pieces.
    pub fn decode(&self, alloc: Global) -> Result<Vec<Piece>, NoMemory>
        ensures { IfOk result (λ pieces. pieces.items ≡ self.now) }
    {
        let mut pieces = Vec::new(alloc);
        if self.text.is_empty() {
            return Ok(pieces);
        }
        let mut rest = self.text;
        while let Some((part, behind)) = cut(b',', rest) {
            push(part, &mut pieces)?;
            rest = behind;
        }
        push(rest, &mut pieces)?;
        Ok(pieces)
    }
}
