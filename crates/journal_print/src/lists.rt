//! Lists, with a comma between two and `-` for none.

ghost use Rattle.std.specs.Prelude.{List, ℕ, ◌∷◌, ◌++◌, codes, map};
ghost use Rattle.std.specs.List.{flat_map};
ghost use Rattle.ff_xdr.specs.Calls.{Grows};
ghost use Rattle.cluster_model.specs.Print.{list_text, mirror_text, piece_text};

use crate::texts::{put_mirror, put_number, put_numbered};
use cluster_model::{MirrorId, Piece};
use ff_xdr::{NoMemory, Out};

/// What may stand in a list.
pub trait Listed: Copy {
    /// Its text.
    ghost text: { Self → List ℕ };

    /// Appends its text. At an error a part of it may stand.
    fn put(self, out: &mut Out) -> Result<(), NoMemory>
        ensures { Grows out.old result out.new (text self) };
}

impl Listed for MirrorId {
    ghost text = { mirror_text };

    fn put(self, out: &mut Out) -> Result<(), NoMemory> {
        put_mirror(self, out)
    }
}

impl Listed for Piece {
    ghost text = { piece_text };

    fn put(self, out: &mut Out) -> Result<(), NoMemory> {
        put_number(self.fileid, out)?;
        put_numbered(b":", u64::from(self.index), out)?;
        put_numbered(b":", u64::from(self.from), out)?;
        put_numbered(b":", u64::from(self.count), out)
    }
}

/// Appends items, each behind a comma.
fn put_more<T: Listed>(items: &[T], out: &mut Out) -> Result<(), NoMemory>
    ensures { Grows out.old result out.new (flat_map (λ item. 44 ∷ T.text item) items.now) }
{
    for item in items {
        out.raw(b",")?;
        item.put(out)?;
    }
    Ok(())
}

/// Appends a list.
fn put_list<T: Listed>(items: &[T], out: &mut Out) -> Result<(), NoMemory>
    ensures { Grows out.old result out.new (list_text (map T.text items.now)) }
{
    let Some((first, rest)) = items.split_first() else {
        return out.raw(b"-");
    };
    first.put(out)?;
    put_more(rest, out)
}

/// Appends a space, a list and the line's end.
pub fn put_last_list<T: Listed>(items: &[T], out: &mut Out) -> Result<(), NoMemory>
    ensures { Grows out.old result out.new (codes " " ++ list_text (map T.text items.now) ++ codes "\n") }
{
    out.raw(b" ")?;
    put_list(items, out)?;
    out.raw(b"\n")
}
