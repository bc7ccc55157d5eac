//! The calls of one session that a callback refers to (RFC 8881, section 20.9).

ghost use Rattle.std.specs.Prelude.{refl};
ghost use Rattle.nfs4_session_ops.specs.ReferringCalls.{referring_call_list4, referring_call_list4_value};

use crate::ReferringCall;
use ff_xdr::{Array, Cursor, Message, NoMemory, Out, Wire, XdrError};
use nfs4_types::SessionId;

/// The calls of one session that a callback refers to, `referring_call_list4`.
#[derive(Clone, Copy, Debug)]
pub struct ReferringCalls<'a> {
    pub session: SessionId,
    pub calls: Array<'a, ReferringCall, { u32::MAX }>,
}

impl<'a> Message for ReferringCalls<'a> {
    ghost form = { referring_call_list4 };

    ghost meaning = { referring_call_list4_value };

    ghost sound = { refl };
}

impl<'a> Wire<'a> for ReferringCalls<'a> {
    fn read(cursor: &mut Cursor<'a>) -> Result<ReferringCalls<'a>, XdrError> {
        let (session, calls) = Wire::read(cursor)?;
        Ok(ReferringCalls { session, calls })
    }

    fn put(&self, out: &mut Out) -> Result<(), NoMemory> {
        (self.session, self.calls).put(out)
    }

    fn fits(&self) -> bool {
        (self.session, self.calls).fits()
    }
}
