//! A call that a callback refers to (RFC 8881, section 20.9).

ghost use Rattle.std.specs.Prelude.{refl};
ghost use Rattle.nfs4_session_ops.specs.ReferringCall.{referring_call4, referring_call4_value};

use ff_xdr::{Cursor, Message, NoMemory, Out, Wire, XdrError};

/// A call that a callback refers to, `referring_call4`.
#[derive(Clone, Copy, Debug, PartialEq, Eq)]
pub struct ReferringCall {
    pub sequence: u32,
    pub slot: u32,
}

impl Message for ReferringCall {
    ghost form = { referring_call4 };

    ghost meaning = { referring_call4_value };

    ghost sound = { refl };
}

impl<'a> Wire<'a> for ReferringCall {
    fn read(cursor: &mut Cursor<'a>) -> Result<ReferringCall, XdrError> {
        let (sequence, slot) = Wire::read(cursor)?;
        Ok(ReferringCall { sequence, slot })
    }

    fn put(&self, out: &mut Out) -> Result<(), NoMemory> {
        (self.sequence, self.slot).put(out)
    }

    fn fits(&self) -> bool {
        (self.sequence, self.slot).fits()
    }
}
