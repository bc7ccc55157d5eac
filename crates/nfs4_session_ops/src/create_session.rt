//! CREATE_SESSION: make a session (RFC 8881, section 18.36).

ghost use Rattle.std.specs.Prelude.{refl};
ghost use Rattle.nfs4_session_ops.specs.CreateSession.{create_session4_args, create_session4_args_value, create_session4_ok, create_session4_ok_value};

use crate::CallbackSec;
use ff_xdr::{Array, Cursor, Message, NoMemory, Out, Wire, XdrError};
use nfs4_types::{ChannelAttrs, OpResult, SessionId};

/// The arguments, `CREATE_SESSION4args`.
#[derive(Clone, Copy, Debug)]
pub struct CreateSessionArgs<'a> {
    /// The client, from EXCHANGE_ID.
    pub clientid: u64,
    /// The number of this request, from EXCHANGE_ID.
    pub sequence: u32,
    pub flags: u32,
    pub fore: ChannelAttrs,
    pub back: ChannelAttrs,
    /// The program of the client's callbacks.
    pub cb_program: u32,
    /// How the server may name itself in them.
    pub security: Array<'a, CallbackSec<'a>, { u32::MAX }>,
}

impl<'a> Message for CreateSessionArgs<'a> {
    ghost form = { create_session4_args };

    ghost meaning = { create_session4_args_value };

    ghost sound = { refl };
}

impl<'a> Wire<'a> for CreateSessionArgs<'a> {
    fn read(cursor: &mut Cursor<'a>) -> Result<CreateSessionArgs<'a>, XdrError> {
        let (clientid, sequence, (flags, fore, (back, cb_program, security))) = Wire::read(cursor)?;
        Ok(CreateSessionArgs {
            clientid,
            sequence,
            flags,
            fore,
            back,
            cb_program,
            security,
        })
    }

    fn put(&self, out: &mut Out) -> Result<(), NoMemory> {
        (
            self.clientid,
            self.sequence,
            (
                self.flags,
                self.fore,
                (self.back, self.cb_program, self.security),
            ),
        )
            .put(out)
    }

    fn fits(&self) -> bool {
        (
            self.clientid,
            self.sequence,
            (
                self.flags,
                self.fore,
                (self.back, self.cb_program, self.security),
            ),
        )
            .fits()
    }
}

/// The result of a CREATE_SESSION that was done, `CREATE_SESSION4resok`.
#[derive(Clone, Copy, Debug, PartialEq, Eq)]
pub struct CreateSessionOk {
    pub session: SessionId,
    pub sequence: u32,
    pub flags: u32,
    pub fore: ChannelAttrs,
    pub back: ChannelAttrs,
}

impl Message for CreateSessionOk {
    ghost form = { create_session4_ok };

    ghost meaning = { create_session4_ok_value };

    ghost sound = { refl };
}

impl<'a> Wire<'a> for CreateSessionOk {
    fn read(cursor: &mut Cursor<'a>) -> Result<CreateSessionOk, XdrError> {
        let (session, sequence, (flags, fore, back)) = Wire::read(cursor)?;
        Ok(CreateSessionOk {
            session,
            sequence,
            flags,
            fore,
            back,
        })
    }

    fn put(&self, out: &mut Out) -> Result<(), NoMemory> {
        (
            self.session,
            self.sequence,
            (self.flags, self.fore, self.back),
        )
            .put(out)
    }

    fn fits(&self) -> bool {
        (
            self.session,
            self.sequence,
            (self.flags, self.fore, self.back),
        )
            .fits()
    }
}

/// The result, `CREATE_SESSION4res`.
pub type CreateSessionRes = OpResult<CreateSessionOk>;
