//! Times.

ghost use Rattle.std.specs.Prelude.{refl};
ghost use Rattle.nfs4_types.specs.Times.{nfstime4, nfstime4_value};

use ff_xdr::{Cursor, Message, NoMemory, Out, Wire, XdrError};

/// A time, `nfstime4` (RFC 8881, section 3.3.1).
#[derive(Clone, Copy, Debug, PartialEq, Eq)]
pub struct Time4 {
    /// Seconds since the beginning of 1970, before it below 0.
    pub seconds: i64,
    /// Nanoseconds behind them. Those of a time are below 1,000,000,000, which is no part of the form.
    pub nanos: u32,
}

impl Message for Time4 {
    ghost form = { nfstime4 };

    ghost meaning = { nfstime4_value };

    ghost sound = { refl };
}

impl<'a> Wire<'a> for Time4 {
    fn read(cursor: &mut Cursor<'a>) -> Result<Time4, XdrError> {
        let (seconds, nanos) = <(i64, u32)>::read(cursor)?;
        Ok(Time4 { seconds, nanos })
    }

    fn put(&self, out: &mut Out) -> Result<(), NoMemory> {
        (self.seconds, self.nanos).put(out)
    }

    fn fits(&self) -> bool {
        (self.seconds, self.nanos).fits()
    }
}
