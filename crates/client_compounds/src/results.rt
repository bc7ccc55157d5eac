//! The results of a compound, taken apart where they are few, and the first of them.

ghost use Rattle.std.specs.Prelude.{◌≡◌};
ghost use Rattle.ff_xdr.specs.Items.{contents};
ghost use Rattle.nfs4_compound.specs.Results.{op_res_value};
ghost use Rattle.client_compounds.specs.MdsLists.{AreFew};
ghost use Rattle.client_compounds.specs.MdsResults.{sequence_ok};

use ff_xdr::{Items, Wire};
use nfs4_compound::OpRes;
use nfs4_types::OpResult;

/// The results of a compound.
pub type CompoundResults<'a> = Items<'a, OpRes<'a>>;

/// A list's values, where there are at most five.
#[derive(Clone, Copy)]
pub enum Few<T> {
    Empty,
    One(T),
    Two(T, T),
    Three(T, T, T),
    Four(T, T, T, T),
    Five(T, T, T, T, T),
    /// There are more.
    More,
}

/// The values of a list, where they are few.
pub fn few_of<'a, T: Wire<'a> + Copy>(list: Items<'a, T>) -> Few<T>
    ensures { AreFew T.meaning (contents T.form T.meaning list.entry.place) result }
{
    let mut items = list.items();
    let Some(a) = items.next() else {
        return Few::Empty;
    };
    let Some(b) = items.next() else {
        return Few::One(a);
    };
    let Some(c) = items.next() else {
        return Few::Two(a, b);
    };
    let Some(d) = items.next() else {
        return Few::Three(a, b, c);
    };
    let Some(e) = items.next() else {
        return Few::Four(a, b, c, d);
    };
    match items.next() {
        None => Few::Five(a, b, c, d, e),
        Some(_) => Few::More,
    }
}

/// A SEQUENCE that is OK (RFC 8881, section 18.46).
pub fn sequence_ok(of: &OpRes<'_>) -> bool
    ensures { result ≡ sequence_ok (op_res_value of.now) }
{
    matches!(of, OpRes::Sequence(OpResult::Done(_)))
}
