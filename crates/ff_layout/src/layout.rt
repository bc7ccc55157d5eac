//! The body of a layout (RFC 8435, section 5.1).

ghost use Rattle.std.specs.Prelude.{refl};
ghost use Rattle.ff_layout.specs.Layout.{ff_layout4, ff_layout4_value};

use crate::FfMirror;
use ff_xdr::{Array, Cursor, Items, Message, NoMemory, Out, Wire, XdrError};

/// The body of a layout of type 4, flexible files, `ff_layout4` (RFC 8435, section 5.1).
#[derive(Clone, Copy, Debug)]
pub struct FfLayout<'a> {
    /// How many bytes of the file stand on one data server of a mirror before the next server's turn.
    pub stripe_unit: u64,
    /// The mirrors, to each of which every write goes; at most 2^32 - 1.
    pub mirrors: Items<'a, FfMirror<'a>>,
    /// A set of flags: 1 for no LAYOUTCOMMIT, 2 for no I/O through the metadata server, 4 for no READ
    /// under a layout for writing, 8 for writes to one mirror alone.
    pub flags: u32,
    /// How often the client is to report its statistics, in seconds; 0 for not.
    pub hint: u32,
}

/// The mirrors of a file.
type Mirrors<'a> = Array<'a, FfMirror<'a>, { u32::MAX }>;

impl<'a> Message for FfLayout<'a> {
    ghost form = { ff_layout4 };

    ghost meaning = { ff_layout4_value };

    ghost sound = { refl };
}

impl<'a> Wire<'a> for FfLayout<'a> {
    fn read(cursor: &mut Cursor<'a>) -> Result<FfLayout<'a>, XdrError> {
        let (stripe_unit, mirrors, (flags, hint)) = <(u64, Mirrors<'a>, (u32, u32))>::read(cursor)?;
        Ok(FfLayout {
            stripe_unit,
            mirrors: mirrors.items,
            flags,
            hint,
        })
    }

    fn put(&self, out: &mut Out) -> Result<(), NoMemory> {
        let mirrors = Mirrors {
            items: self.mirrors,
        };
        (self.stripe_unit, mirrors, (self.flags, self.hint)).put(out)
    }

    fn fits(&self) -> bool {
        let mirrors = Mirrors {
            items: self.mirrors,
        };
        (self.stripe_unit, mirrors, (self.flags, self.hint)).fits()
    }
}
