//! BIND_CONN_TO_SESSION: a connection for a session's channels (RFC 8881, section 18.34).

ghost use Rattle.nfs4_session_ops.specs.BindConn.{bind_conn4, bind_conn4_value, bind_conn4_is_proper};

use crate::{FromClient, FromServer};
use ff_xdr::{Cursor, Message, NoMemory, Out, Wire, XdrError};
use nfs4_types::{OpResult, SessionId};

/// A connection and a session: as a client asks for it, or as a server grants it. The two differ in the
/// directions that there are.
#[derive(Clone, Copy, Debug, PartialEq, Eq)]
pub struct BindConn<D> {
    pub session: SessionId,
    pub direction: D,
    /// The connection is to go over to RDMA.
    pub rdma: bool,
}

impl<D: Message> Message for BindConn<D> {
    ghost form = { bind_conn4 D.form };

    ghost meaning = { bind_conn4_value D.form D.meaning };

    ghost sound = { bind_conn4_is_proper D.form D.sound };
}

impl<'a, D: Wire<'a> + Copy> Wire<'a> for BindConn<D> {
    fn read(cursor: &mut Cursor<'a>) -> Result<BindConn<D>, XdrError> {
        let (session, direction, rdma) = Wire::read(cursor)?;
        Ok(BindConn {
            session,
            direction,
            rdma,
        })
    }

    fn put(&self, out: &mut Out) -> Result<(), NoMemory> {
        (self.session, self.direction, self.rdma).put(out)
    }

    fn fits(&self) -> bool {
        (self.session, self.direction, self.rdma).fits()
    }
}

/// The arguments, `BIND_CONN_TO_SESSION4args`.
pub type BindConnArgs = BindConn<FromClient>;

/// The result of a BIND_CONN_TO_SESSION that was done, `BIND_CONN_TO_SESSION4resok`.
pub type BindConnOk = BindConn<FromServer>;

/// The result, `BIND_CONN_TO_SESSION4res`.
pub type BindConnRes = OpResult<BindConnOk>;
