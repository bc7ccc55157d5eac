//! Reading and writing of `Auth` and `AuthSys`.

ghost use Rattle.std.specs.Prelude.{refl};
ghost use Rattle.rpc_record.specs.Rpc.{opaque_auth, authsys_parms, opaque_auth_value, plain_auth, credential_value, plain_credential};

use crate::auth::{Auth, AuthSys, MAX_BODY};
use ff_xdr::{Array, Cursor, Message, NoMemory, Opaque, Out, Wire, XdrError};

/// The most bytes in a machine's name.
pub const MAX_MACHINE: u32 = 255;

/// The most further groups.
pub const MAX_GIDS: u32 = 16;

/// The body of an `opaque_auth` (RFC 5531, section 8.2).
type Body<'a> = Opaque<'a, MAX_BODY>;

/// A machine's name (RFC 5531, appendix A).
type Machine<'a> = Opaque<'a, MAX_MACHINE>;

/// The further groups of a caller (RFC 5531, appendix A).
type Gids<'a> = Array<'a, u32, MAX_GIDS>;

impl<'a> Message for Auth<'a> {
    ghost form = { opaque_auth };

    ghost meaning = { λ a. opaque_auth_value (plain_auth a) };

    ghost sound = { refl };
}

impl<'a> Wire<'a> for Auth<'a> {
    fn read(cursor: &mut Cursor<'a>) -> Result<Auth<'a>, XdrError> {
        let (flavor, body) = <(u32, Body<'a>)>::read(cursor)?;
        let body = body.bytes;
        Ok(Auth { flavor, body })
    }

    fn put(&self, out: &mut Out) -> Result<(), NoMemory> {
        (self.flavor, Body { bytes: self.body }).put(out)
    }

    fn fits(&self) -> bool {
        (self.flavor, Body { bytes: self.body }).fits()
    }
}

impl<'a> Message for AuthSys<'a> {
    ghost form = { authsys_parms };

    ghost meaning = { λ a. credential_value (plain_credential a) };

    ghost sound = { refl };
}

impl<'a> Wire<'a> for AuthSys<'a> {
    fn read(cursor: &mut Cursor<'a>) -> Result<AuthSys<'a>, XdrError> {
        let (stamp, machine, (uid, gid, gids)) = <(u32, Machine<'a>, (u32, u32, Gids<'a>))>::read(
            cursor,
        )?;
        Ok(AuthSys {
            stamp,
            machine: machine.bytes,
            uid,
            gid,
            gids: gids.items,
        })
    }

    fn put(&self, out: &mut Out) -> Result<(), NoMemory> {
        let machine = Machine {
            bytes: self.machine,
        };
        let gids = Gids { items: self.gids };
        (self.stamp, machine, (self.uid, self.gid, gids)).put(out)
    }

    fn fits(&self) -> bool {
        let machine = Machine {
            bytes: self.machine,
        };
        let gids = Gids { items: self.gids };
        (self.stamp, machine, (self.uid, self.gid, gids)).fits()
    }
}
