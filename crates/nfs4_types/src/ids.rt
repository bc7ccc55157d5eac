//! The identifiers of sessions and of devices.

ghost use Rattle.std.specs.Prelude.{◌≡◌, refl};
ghost use Rattle.nfs4_types.specs.Ids.{sessionid4, deviceid4, device_id_of};

use ff_xdr::{Cursor, Message, NoMemory, Out, Wire, XdrError};

/// A session, `sessionid4` (RFC 8881, section 3.2).
#[derive(Clone, Copy, Debug, PartialEq, Eq, Hash)]
pub struct SessionId(pub [u8; 16]);

impl Message for SessionId {
    ghost form = { sessionid4 };

    ghost meaning = { λ session. session.0 };

    ghost sound = { refl };
}

impl<'a> Wire<'a> for SessionId {
    fn read(cursor: &mut Cursor<'a>) -> Result<SessionId, XdrError> {
        let bytes = <[u8; 16]>::read(cursor)?;
        Ok(SessionId(bytes))
    }

    fn put(&self, out: &mut Out) -> Result<(), NoMemory> {
        self.0.put(out)
    }

    fn fits(&self) -> bool {
        self.0.fits()
    }
}

/// A device, `deviceid4` (RFC 8881, section 3.3.14).
#[derive(Clone, Copy, Debug, PartialEq, Eq, Hash)]
pub struct DeviceId(pub [u8; 16]);

impl Message for DeviceId {
    ghost form = { deviceid4 };

    ghost meaning = { λ device. device.0 };

    ghost sound = { refl };
}

impl<'a> Wire<'a> for DeviceId {
    fn read(cursor: &mut Cursor<'a>) -> Result<DeviceId, XdrError> {
        let bytes = <[u8; 16]>::read(cursor)?;
        Ok(DeviceId(bytes))
    }

    fn put(&self, out: &mut Out) -> Result<(), NoMemory> {
        self.0.put(out)
    }

    fn fits(&self) -> bool {
        self.0.fits()
    }
}

/// The device of a data server: eight zero bytes and its number as eight bytes, the highest first.
#[tactic(auto, unfolding(ff_xdr::specs::Form::long))]
pub fn device_of(server: u32) -> DeviceId
    ensures { result ≡ device_id_of server }
{
    let mut bytes = [0; 16];
    bytes[8..].copy_from_slice(&(server as u64).to_be_bytes());
    DeviceId(bytes)
}
