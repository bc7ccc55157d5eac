//! EXCHANGE_ID: a client makes itself known (RFC 8881, section 18.35).

ghost use Rattle.std.specs.Prelude.{refl};
ghost use Rattle.nfs4_session_ops.specs.ExchangeId.{exchange_id4_args, exchange_id4_args_value, exchange_id4_ok, exchange_id4_ok_value};

use crate::ImplId;
use ff_xdr::{Cursor, Message, NoMemory, Out, Wire, XdrError};
use nfs4_types::{ArmZero, AtMostOne, OpResult, Owner4};

/// The arguments, `EXCHANGE_ID4args`.
#[derive(Clone, Copy, Debug, PartialEq, Eq)]
pub struct ExchangeIdArgs<'a> {
    /// The eight bytes of the client's verifier, as one number.
    pub verifier: u64,
    pub owner: Owner4<'a>,
    pub flags: u32,
    /// None, `SP4_NONE`.
    pub protect: ArmZero<()>,
    pub impl_id: AtMostOne<ImplId<'a>>,
}

impl<'a> Message for ExchangeIdArgs<'a> {
    ghost form = { exchange_id4_args };

    ghost meaning = { exchange_id4_args_value };

    ghost sound = { refl };
}

impl<'a> Wire<'a> for ExchangeIdArgs<'a> {
    fn read(cursor: &mut Cursor<'a>) -> Result<ExchangeIdArgs<'a>, XdrError> {
        let (verifier, owner, (flags, protect, impl_id)) = Wire::read(cursor)?;
        Ok(ExchangeIdArgs {
            verifier,
            owner,
            flags,
            protect,
            impl_id,
        })
    }

    fn put(&self, out: &mut Out) -> Result<(), NoMemory> {
        (
            self.verifier,
            self.owner,
            (self.flags, self.protect, self.impl_id),
        )
            .put(out)
    }

    fn fits(&self) -> bool {
        (
            self.verifier,
            self.owner,
            (self.flags, self.protect, self.impl_id),
        )
            .fits()
    }
}

/// The result of an EXCHANGE_ID that was done, `EXCHANGE_ID4resok`.
#[derive(Clone, Copy, Debug, PartialEq, Eq)]
pub struct ExchangeIdOk<'a> {
    pub clientid: u64,
    /// The number of the client's next CREATE_SESSION.
    pub sequence: u32,
    pub flags: u32,
    /// None, `SP4_NONE`.
    pub protect: ArmZero<()>,
    pub minor_id: u64,
    pub major_id: Owner4<'a>,
    pub scope: Owner4<'a>,
    pub impl_id: AtMostOne<ImplId<'a>>,
}

impl<'a> Message for ExchangeIdOk<'a> {
    ghost form = { exchange_id4_ok };

    ghost meaning = { exchange_id4_ok_value };

    ghost sound = { refl };
}

impl<'a> Wire<'a> for ExchangeIdOk<'a> {
    fn read(cursor: &mut Cursor<'a>) -> Result<ExchangeIdOk<'a>, XdrError> {
        let (clientid, sequence, (flags, protect, (minor_id, major_id, (scope, impl_id)))) =
            Wire::read(cursor)?;
        Ok(ExchangeIdOk {
            clientid,
            sequence,
            flags,
            protect,
            minor_id,
            major_id,
            scope,
            impl_id,
        })
    }

    fn put(&self, out: &mut Out) -> Result<(), NoMemory> {
        (
            self.clientid,
            self.sequence,
            (
                self.flags,
                self.protect,
                (self.minor_id, self.major_id, (self.scope, self.impl_id)),
            ),
        )
            .put(out)
    }

    fn fits(&self) -> bool {
        (
            self.clientid,
            self.sequence,
            (
                self.flags,
                self.protect,
                (self.minor_id, self.major_id, (self.scope, self.impl_id)),
            ),
        )
            .fits()
    }
}

/// The result, `EXCHANGE_ID4res`.
pub type ExchangeIdRes<'a> = OpResult<ExchangeIdOk<'a>>;
