//! SEQUENCE: where a compound stands in its session (RFC 8881, section 18.46).

ghost use Rattle.std.specs.Prelude.{refl};
ghost use Rattle.nfs4_session_ops.specs.SequenceRes.{sequence4_ok, sequence4_ok_value};

use ff_xdr::{Cursor, Message, NoMemory, Out, Wire, XdrError};
use nfs4_types::{OpResult, SessionId};

/// The result of a SEQUENCE that was done, `SEQUENCE4resok`.
#[derive(Clone, Copy, Debug, PartialEq, Eq)]
pub struct SequenceOk {
    pub session: SessionId,
    pub sequence: u32,
    /// From 0.
    pub slot: u32,
    /// The highest slot that the server takes.
    pub highest: u32,
    /// The highest slot that it would have in use.
    pub target_highest: u32,
    pub status_flags: u32,
}

impl Message for SequenceOk {
    ghost form = { sequence4_ok };

    ghost meaning = { sequence4_ok_value };

    ghost sound = { refl };
}

impl<'a> Wire<'a> for SequenceOk {
    fn read(cursor: &mut Cursor<'a>) -> Result<SequenceOk, XdrError> {
        let (session, sequence, (slot, highest, (target_highest, status_flags))) = Wire::read(
            cursor,
        )?;
        Ok(SequenceOk {
            session,
            sequence,
            slot,
            highest,
            target_highest,
            status_flags,
        })
    }

    fn put(&self, out: &mut Out) -> Result<(), NoMemory> {
        (
            self.session,
            self.sequence,
            (
                self.slot,
                self.highest,
                (self.target_highest, self.status_flags),
            ),
        )
            .put(out)
    }

    fn fits(&self) -> bool {
        (
            self.session,
            self.sequence,
            (
                self.slot,
                self.highest,
                (self.target_highest, self.status_flags),
            ),
        )
            .fits()
    }
}

/// The result, `SEQUENCE4res`.
pub type SequenceRes = OpResult<SequenceOk>;
