ghost use Rattle.std.specs.Prelude.{IsTrue};
ghost use Rattle.ff_xdr.specs.Form.{Form, is_sound};
ghost use Rattle.ff_xdr.specs.Laws.{is_filled, is_union};
ghost use Rattle.ff_xdr.specs.Faults.{IsNamedRight, IsShortJustWhere, IsBeginningRight, IsArmNamedRight, IsArmShortJustWhere};
ghost use Rattle.ff_xdr.specs.Unbuilt.{IsUnbuiltRight};

/// What a refusal says is so, of every form (RFC 4506).
///
/// A refusal that is not for want of bytes has the fault that it names: some value has the bytes up to
/// the refused place, and there an item (the word of a bool, a discriminant, a length, a byte of padding
/// or a sequence of a string) of which what stands in the bytes is none.
///
/// Bytes are short just where they end in a value: they are its beginning, and not all of it; or its
/// beginning up to a bool, a discriminant or a length, of which fewer than its four bytes stand. What
/// stands of a string is looked at before all of it is there: it is taken just where some string of that
/// length begins so (RFC 3629).
///
/// The same holds of a union whose number is known from outside, as the procedure of a call.
///
/// Where the arm of a number is not built, the number is refused; and a form that has no enum refuses
/// a number only there.
pub fn every_refusal()
    ensures named { (form : Form) → IsTrue (is_sound form) → IsTrue (is_filled form) → IsNamedRight form }
    ensures short { (form : Form) → IsTrue (is_sound form) → IsTrue (is_filled form) → IsShortJustWhere form }
    ensures begins { IsBeginningRight }
    ensures arm_named { (form : Form) → IsTrue (is_sound form) → IsTrue (is_filled form) → IsTrue (is_union form) → IsArmNamedRight form }
    ensures arm_short { (form : Form) → IsTrue (is_sound form) → IsTrue (is_filled form) → IsTrue (is_union form) → IsArmShortJustWhere form }
    ensures unbuilt { (form : Form) → IsUnbuiltRight form }
{}
