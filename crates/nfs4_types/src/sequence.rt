//! Where a request stands in its session.

ghost use Rattle.std.specs.Prelude.{refl};
ghost use Rattle.nfs4_types.specs.Sequences.{sequence4_args, sequence4_args_value};

use crate::SessionId;
use ff_xdr::{Cursor, Message, NoMemory, Out, Wire, XdrError};

/// Where a request stands in its session, the arguments of SEQUENCE, `SEQUENCE4args` (RFC 8881, section
/// 18.46).
#[derive(Clone, Copy, Debug, PartialEq, Eq)]
pub struct Sequence {
    pub session: SessionId,
    /// The number of the request on its slot, from 1.
    pub sequence: u32,
    /// The slot, from 0.
    pub slot: u32,
    /// The highest slot that has an outstanding request.
    pub highest: u32,
    /// The reply is to be kept.
    pub cachethis: bool,
}

impl Message for Sequence {
    ghost form = { sequence4_args };

    ghost meaning = { sequence4_args_value };

    ghost sound = { refl };
}

impl<'a> Wire<'a> for Sequence {
    fn read(cursor: &mut Cursor<'a>) -> Result<Sequence, XdrError> {
        let (session, sequence, (slot, highest, cachethis)) = <(
            SessionId,
            u32,
            (u32, u32, bool),
        )>::read(cursor)?;
        Ok(Sequence {
            session,
            sequence,
            slot,
            highest,
            cachethis,
        })
    }

    fn put(&self, out: &mut Out) -> Result<(), NoMemory> {
        let slot = (self.slot, self.highest, self.cachethis);
        (self.session, self.sequence, slot).put(out)
    }

    fn fits(&self) -> bool {
        let slot = (self.slot, self.highest, self.cachethis);
        (self.session, self.sequence, slot).fits()
    }
}
