//! Reading in pieces.

ghost use Rattle.std.specs.Prelude.{◌≡◌, ◌≤◌, length, IfOk};
ghost use Rattle.rpc_record.specs.Stream.{counted};
ghost use Rattle.line_runs.specs.Lines.{all_left};
ghost use Rattle.user_nodes.specs.Puts.{ReadsPiece};

use line_runs::LineBuffer;
use rpc_record::{Failed, Source};

/// Reads the bytes that the buffer holds, and behind them those of the source, until the piece is full or the
/// bytes end. Returns how many were read: fewer than the piece has room for only at the end.
///
/// An error is the source's. What was read before it is in the piece, and lost to the source.
pub(crate) fn read_piece<S: Source>(
    buffer: &mut LineBuffer,
    source: &mut S,
    piece: &mut [u8],
) -> Result<usize, Failed>
    ensures within { IfOk result (λ n. n ≤ length piece.new) }
    ensures told { ReadsPiece (all_left buffer.old (S.left source.old)) piece.new result (all_left buffer.new (S.left source.new)) }
    ensures faults { S.faults source.new ≡ counted result (S.faults source.old) }
{
    let mut filled = 0;
    'reads: while filled < piece.len() {
        let count = buffer.read(source, &mut piece[filled..])?;
        if count == 0 {
            return Ok(filled);
        }
        filled += count;
    }
    Ok(filled)
}
