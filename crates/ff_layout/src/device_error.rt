//! What went wrong at a device (RFC 7862, section 15.6).

ghost use Rattle.std.specs.Prelude.{refl};
ghost use Rattle.ff_layout.specs.DeviceError.{device_error4, device_error4_value};

use ff_xdr::{Cursor, Message, NoMemory, Out, Wire, XdrError};
use nfs4_types::DeviceId;

/// A call that a device refused or did not answer, `device_error4` (RFC 7862, section 15.6).
#[derive(Clone, Copy, Debug, PartialEq, Eq)]
pub struct DeviceError {
    pub device: DeviceId,
    /// The status by its number in `nfsstat4`; here any number.
    pub status: u32,
    /// The operation by its number in `nfs_opnum4`; here any number.
    pub opnum: u32,
}

impl Message for DeviceError {
    ghost form = { device_error4 };

    ghost meaning = { device_error4_value };

    ghost sound = { refl };
}

impl<'a> Wire<'a> for DeviceError {
    fn read(cursor: &mut Cursor<'a>) -> Result<DeviceError, XdrError> {
        let (device, status, opnum) = Wire::read(cursor)?;
        Ok(DeviceError {
            device,
            status,
            opnum,
        })
    }

    fn put(&self, out: &mut Out) -> Result<(), NoMemory> {
        (self.device, self.status, self.opnum).put(out)
    }

    fn fits(&self) -> bool {
        (self.device, self.status, self.opnum).fits()
    }
}
