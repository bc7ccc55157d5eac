//! What a data server makes of a record.

use nfs3_wire::Call3;
use rpc_record::{AuthSys, Reply};

/// Nothing, a refusal, or a call with its credential.
#[derive(Clone, Copy)]
pub enum Received<'a> {
    Silent,
    Refused(Reply<'a>),
    Asked {
        xid: u32,
        call: Call3<'a>,
        cred: AuthSys<'a>,
    },
}
