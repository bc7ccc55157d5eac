//! How the server is to name itself in callbacks (RFC 8881, section 18.33).

ghost use Rattle.std.specs.Prelude.{refl};
ghost use Rattle.nfs4_session_ops.specs.CallbackSec.{callback_sec4, callback_sec4_value};

use ff_xdr::{Cursor, Message, NoMemory, Out, Wire, XdrError};
use rpc_record::AuthSys;

/// How the server is to name itself in callbacks, a union by the flavor, `callback_sec_parms4`. GSS is not
/// built.
#[derive(Clone, Copy, Debug)]
pub enum CallbackSec<'a> {
    /// AUTH_NONE.
    None,
    /// AUTH_SYS, its body in line.
    Sys(AuthSys<'a>),
}

impl<'a> Message for CallbackSec<'a> {
    ghost form = { callback_sec4 };

    ghost meaning = { callback_sec4_value };

    ghost sound = { refl };
}

impl<'a> Wire<'a> for CallbackSec<'a> {
    fn read(cursor: &mut Cursor<'a>) -> Result<CallbackSec<'a>, XdrError> {
        let mut fork = cursor.fork();
        let sec = match fork.number32()? {
            0 => CallbackSec::None,
            1 => CallbackSec::Sys(Wire::read(&mut fork)?),
            _ => return Err(XdrError::not_enum(cursor.place())),
        };
        *cursor = fork;
        Ok(sec)
    }

    fn put(&self, out: &mut Out) -> Result<(), NoMemory> {
        match self {
            CallbackSec::None => 0u32.put(out),
            CallbackSec::Sys(credential) => (1u32, *credential).put(out),
        }
    }

    fn fits(&self) -> bool {
        match self {
            CallbackSec::None => true,
            CallbackSec::Sys(credential) => credential.fits(),
        }
    }
}
