//! Data as text: whole, or its first bytes and how many more there are.

ghost use Rattle.std.specs.Prelude.{◌++◌, codes};
ghost use Rattle.ff_xdr.specs.Calls.{Grows};
ghost use Rattle.journal_print.specs.Brief.{brief_bytes};
ghost use Rattle.journal_print.specs.Shown.{text_shown};

use crate::hex_text::put_hex;
use crate::texts::put_numbered;
use ff_xdr::{NoMemory, Out};

/// So many bytes of data stand in a brief line.
const BRIEF_BYTES: usize = 64;

/// How the data of an entry is shown.
#[derive(Clone, Copy)]
pub enum Shown {
    /// All of it.
    Whole,
    /// The first 64 bytes, then `+` and how many the others are.
    Brief,
}

/// Appends data: all of it, or its first bytes and how many the others are.
fn put_brief_bytes(bytes: &[u8], out: &mut Out) -> Result<(), NoMemory>
    ensures { Grows out.old result out.new (brief_bytes bytes.now) }
{
    if bytes.len() <= BRIEF_BYTES {
        return put_hex(bytes, out);
    }
    let (first, others) = bytes.split_at(BRIEF_BYTES);
    put_hex(first, out)?;
    put_numbered(b"+", others.len() as u64, out)
}

/// Appends data, shown so.
pub fn put_data(bytes: &[u8], shown: Shown, out: &mut Out) -> Result<(), NoMemory>
    ensures { Grows out.old result out.new (text_shown shown bytes.now) }
{
    match shown {
        Shown::Whole => put_hex(bytes, out),
        Shown::Brief => put_brief_bytes(bytes, out),
    }
}

/// Appends a space, data that is shown so, and the line's end.
pub fn put_last_data(bytes: &[u8], shown: Shown, out: &mut Out) -> Result<(), NoMemory>
    ensures { Grows out.old result out.new (codes " " ++ text_shown shown bytes.now ++ codes "\n") }
{
    out.raw(b" ")?;
    put_data(bytes, shown, out)?;
    out.raw(b"\n")
}
