//! Ticks in XDR (RFC 4506, section 4.14).

ghost use Rattle.std.specs.Prelude.{refl};
ghost use Rattle.ds_log.specs.Bodies.{tick_form, tick_value};

use cluster_model::Tick;
use ff_xdr::{Cursor, Message, NoMemory, Out, Wire, XdrError};

/// A tick in XDR: the boot, and the count.
#[derive(Clone, Copy)]
pub struct WireTick {
    pub tick: Tick,
}

impl Message for WireTick {
    ghost form = { tick_form };

    ghost meaning = { λ wire. tick_value wire.tick };

    ghost sound = { refl };
}

impl<'a> Wire<'a> for WireTick {
    fn read(cursor: &mut Cursor<'a>) -> Result<WireTick, XdrError> {
        let (boot, count) = <(u32, u32)>::read(cursor)?;
        Ok(WireTick {
            tick: Tick { boot, count },
        })
    }

    fn put(&self, out: &mut Out) -> Result<(), NoMemory> {
        (self.tick.boot, self.tick.count).put(out)
    }

    fn fits(&self) -> bool {
        (self.tick.boot, self.tick.count).fits()
    }
}
