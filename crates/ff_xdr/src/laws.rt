//! The laws of the grammar. Each reader and each writer answers by the same definitions.

ghost use Rattle.std.specs.Prelude.{IsTrue};
ghost use Rattle.ff_xdr.specs.Form.{Form, is_sound};
ghost use Rattle.ff_xdr.specs.Laws.{is_filled, is_union};
ghost use Rattle.ff_xdr.specs.Exact.{IsExact, IsExactByNumber};

use crate::wire::Message;

/// The laws of every form: what was written is read back and takes exactly its bytes, and what is read
/// is spelled so.
///
/// A refusal is right too: a short one is at the end of the bytes, any other stands whatever follows
/// the refused item, no value has that item there, and some value has all bytes in front of it.
pub fn every_form()
    ensures { (form : Form) → IsTrue (is_sound form) → IsExact form }
{}

/// The same laws of a union whose number is known from outside, as the procedure of a call.
pub fn every_arm()
    ensures { (form : Form) → IsTrue (is_sound form) → IsTrue (is_union form) → IsExactByNumber form }
{}

/// The same laws of the messages of a type, whose form is sound by its own law.
pub fn every_message_of<T: Message>()
    ensures exact { IsExact T.form }
    ensures filled { IsTrue (is_filled T.form) }
{
    every_form();
}
