//! The laws of the identifiers that the metadata server gives.

ghost use Rattle.nfs4_types.specs.Laws.{AreLayoutsDifferent, AreOpensDifferent, IsOpenNoLayout, AreReadLayoutsDifferent, IsReadNoWriteLayout, IsReadNoOpen, AreDevicesDifferent, IsNumberAgain};

use ff_xdr::every_form;

/// Different layouts, different opens, different data servers and different files have different
/// identifiers; no open has that of a layout, and no layout for reading that of another one.
pub fn different_ids()
    ensures layouts { AreLayoutsDifferent }
    ensures opens { AreOpensDifferent }
    ensures kinds { IsOpenNoLayout }
    ensures read_layouts { AreReadLayoutsDifferent }
    ensures read_kinds { IsReadNoWriteLayout }
    ensures read_opens { IsReadNoOpen }
    ensures devices { AreDevicesDifferent }
    ensures handles { IsNumberAgain }
{
    every_form();
}
