//! What a client reports with a layout that it gives back (RFC 8435, section 9.3).

ghost use Rattle.std.specs.Prelude.{refl};
ghost use Rattle.ff_layout.specs.ReturnBody.{ff_layoutreturn4, ff_layoutreturn4_value};

use crate::{IoErr, IoStats};
use ff_xdr::{Array, Cursor, Items, Message, NoMemory, Out, Wire, XdrError};

/// The body of a LAYOUTRETURN, `ff_layoutreturn4` (RFC 8435, section 9.3). Where nothing is reported
/// both lists are empty.
#[derive(Clone, Copy, Debug)]
pub struct LayoutReturnBody<'a> {
    /// At most 2^32 - 1.
    pub errors: Items<'a, IoErr<'a>>,
    /// At most 2^32 - 1.
    pub stats: Items<'a, IoStats<'a>>,
}

/// The errors.
type IoErrs<'a> = Array<'a, IoErr<'a>, { u32::MAX }>;

/// The statistics.
type AllStats<'a> = Array<'a, IoStats<'a>, { u32::MAX }>;

impl<'a> Message for LayoutReturnBody<'a> {
    ghost form = { ff_layoutreturn4 };

    ghost meaning = { ff_layoutreturn4_value };

    ghost sound = { refl };
}

impl<'a> Wire<'a> for LayoutReturnBody<'a> {
    fn read(cursor: &mut Cursor<'a>) -> Result<LayoutReturnBody<'a>, XdrError> {
        let (errors, stats) = <(IoErrs<'a>, AllStats<'a>)>::read(cursor)?;
        Ok(LayoutReturnBody {
            errors: errors.items,
            stats: stats.items,
        })
    }

    fn put(&self, out: &mut Out) -> Result<(), NoMemory> {
        let errors = IoErrs { items: self.errors };
        let stats = AllStats { items: self.stats };
        (errors, stats).put(out)
    }

    fn fits(&self) -> bool {
        let errors = IoErrs { items: self.errors };
        let stats = AllStats { items: self.stats };
        (errors, stats).fits()
    }
}
