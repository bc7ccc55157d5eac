//! A mirror of a file (RFC 8435, section 5.1).

ghost use Rattle.std.specs.Prelude.{refl};
ghost use Rattle.ff_layout.specs.Mirror.{ff_mirror4, ff_mirror4_value};

use crate::FfDataServer;
use ff_xdr::{Array, Cursor, Items, Message, NoMemory, Out, Wire, XdrError};

/// A mirror, `ff_mirror4` (RFC 8435, section 5.1).
#[derive(Clone, Copy, Debug)]
pub struct FfMirror<'a> {
    /// The servers that the mirror is striped over, in the order of its stripes; at most 2^32 - 1.
    pub servers: Items<'a, FfDataServer<'a>>,
}

/// The data servers of a mirror.
type Servers<'a> = Array<'a, FfDataServer<'a>, { u32::MAX }>;

impl<'a> Message for FfMirror<'a> {
    ghost form = { ff_mirror4 };

    ghost meaning = { ff_mirror4_value };

    ghost sound = { refl };
}

impl<'a> Wire<'a> for FfMirror<'a> {
    fn read(cursor: &mut Cursor<'a>) -> Result<FfMirror<'a>, XdrError> {
        let servers = Servers::read(cursor)?;
        Ok(FfMirror {
            servers: servers.items,
        })
    }

    fn put(&self, out: &mut Out) -> Result<(), NoMemory> {
        let servers = Servers {
            items: self.servers,
        };
        servers.put(out)
    }

    fn fits(&self) -> bool {
        let servers = Servers {
            items: self.servers,
        };
        servers.fits()
    }
}
