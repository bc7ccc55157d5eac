//! CB_SEQUENCE: where a callback stands in its session (RFC 8881, section 20.9).

ghost use Rattle.std.specs.Prelude.{refl};
ghost use Rattle.nfs4_session_ops.specs.CbSequence.{cb_sequence4_args, cb_sequence4_args_value, cb_sequence4_ok, cb_sequence4_ok_value};

use crate::ReferringCalls;
use ff_xdr::{Array, Cursor, Message, NoMemory, Out, Wire, XdrError};
use nfs4_types::{OpResult, SessionId};

/// The arguments, `CB_SEQUENCE4args`.
#[derive(Clone, Copy, Debug)]
pub struct CbSequenceArgs<'a> {
    pub session: SessionId,
    /// The number of the callback on its slot, from 1.
    pub sequence: u32,
    /// From 0.
    pub slot: u32,
    /// The highest slot that has an outstanding callback.
    pub highest: u32,
    /// The reply is to be kept.
    pub cachethis: bool,
    /// The client's calls that are to be answered before.
    pub referring: Array<'a, ReferringCalls<'a>, { u32::MAX }>,
}

impl<'a> Message for CbSequenceArgs<'a> {
    ghost form = { cb_sequence4_args };

    ghost meaning = { cb_sequence4_args_value };

    ghost sound = { refl };
}

impl<'a> Wire<'a> for CbSequenceArgs<'a> {
    fn read(cursor: &mut Cursor<'a>) -> Result<CbSequenceArgs<'a>, XdrError> {
        let (session, sequence, (slot, highest, (cachethis, referring))) = Wire::read(cursor)?;
        Ok(CbSequenceArgs {
            session,
            sequence,
            slot,
            highest,
            cachethis,
            referring,
        })
    }

    fn put(&self, out: &mut Out) -> Result<(), NoMemory> {
        (
            self.session,
            self.sequence,
            (self.slot, self.highest, (self.cachethis, self.referring)),
        )
            .put(out)
    }

    fn fits(&self) -> bool {
        (
            self.session,
            self.sequence,
            (self.slot, self.highest, (self.cachethis, self.referring)),
        )
            .fits()
    }
}

/// The result of a CB_SEQUENCE that was done, `CB_SEQUENCE4resok`.
#[derive(Clone, Copy, Debug, PartialEq, Eq)]
pub struct CbSequenceOk {
    pub session: SessionId,
    pub sequence: u32,
    pub slot: u32,
    pub highest: u32,
    pub target_highest: u32,
}

impl Message for CbSequenceOk {
    ghost form = { cb_sequence4_ok };

    ghost meaning = { cb_sequence4_ok_value };

    ghost sound = { refl };
}

impl<'a> Wire<'a> for CbSequenceOk {
    fn read(cursor: &mut Cursor<'a>) -> Result<CbSequenceOk, XdrError> {
        let (session, sequence, (slot, highest, target_highest)) = Wire::read(cursor)?;
        Ok(CbSequenceOk {
            session,
            sequence,
            slot,
            highest,
            target_highest,
        })
    }

    fn put(&self, out: &mut Out) -> Result<(), NoMemory> {
        (
            self.session,
            self.sequence,
            (self.slot, self.highest, self.target_highest),
        )
            .put(out)
    }

    fn fits(&self) -> bool {
        (
            self.session,
            self.sequence,
            (self.slot, self.highest, self.target_highest),
        )
            .fits()
    }
}

/// The result, `CB_SEQUENCE4res`.
pub type CbSequenceRes = OpResult<CbSequenceOk>;
