//! The address of a device (RFC 8435, section 4.1).

ghost use Rattle.std.specs.Prelude.{refl};
ghost use Rattle.device_addr.specs.Device.{ff_device_addr4, ff_device_addr4_value};

use crate::{FfVersion, NetText};
use ff_xdr::{Array, Cursor, Items, Message, NoMemory, Out, Wire, XdrError};

/// Where a device is found and what it speaks, `ff_device_addr4` (RFC 8435, section 4.1).
#[derive(Clone, Copy, Debug)]
pub struct FfDeviceAddr<'a> {
    /// The device's addresses, each of which leads to it; at most 2^32 - 1.
    pub addresses: Items<'a, NetText<'a>>,
    /// The versions that it speaks, in the order of a file's handles in a layout; at most 2^32 - 1.
    pub versions: Items<'a, FfVersion>,
}

/// The addresses, `multipath_list4` (RFC 8435, section 4.1).
type Addresses<'a> = Array<'a, NetText<'a>, { u32::MAX }>;

/// The versions.
type Versions<'a> = Array<'a, FfVersion, { u32::MAX }>;

impl<'a> Message for FfDeviceAddr<'a> {
    ghost form = { ff_device_addr4 };

    ghost meaning = { ff_device_addr4_value };

    ghost sound = { refl };
}

impl<'a> Wire<'a> for FfDeviceAddr<'a> {
    fn read(cursor: &mut Cursor<'a>) -> Result<FfDeviceAddr<'a>, XdrError> {
        let (addresses, versions) = <(Addresses<'a>, Versions<'a>)>::read(cursor)?;
        Ok(FfDeviceAddr {
            addresses: addresses.items,
            versions: versions.items,
        })
    }

    fn put(&self, out: &mut Out) -> Result<(), NoMemory> {
        let addresses = Addresses {
            items: self.addresses,
        };
        let versions = Versions {
            items: self.versions,
        };
        (addresses, versions).put(out)
    }

    fn fits(&self) -> bool {
        let addresses = Addresses {
            items: self.addresses,
        };
        let versions = Versions {
            items: self.versions,
        };
        (addresses, versions).fits()
    }
}
