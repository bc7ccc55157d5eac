//! The laws of the bodies.

ghost use Rattle.ff_xdr.specs.Exact.{IsExact};
ghost use Rattle.ff_layout.specs.Layout.{ff_layout4};
ghost use Rattle.ff_layout.specs.ReturnBody.{ff_layoutreturn4};

use crate::{FfLayout, LayoutReturnBody};
use ff_xdr::every_message_of;

/// The laws of the bodies of layouts and of LAYOUTRETURN: what is written is read back and takes exactly
/// its bytes, what is read is spelled so, and a refusal stands at the first byte that no value has
/// there. `Wire` of each type answers by the same definitions.
pub fn every_body()
    ensures layouts { IsExact ff_layout4 }
    ensures returns { IsExact ff_layoutreturn4 }
{
    every_message_of::<FfLayout>();
    every_message_of::<LayoutReturnBody>();
}
