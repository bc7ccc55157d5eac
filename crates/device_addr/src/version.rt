//! A version of NFS that a device speaks (RFC 8435, section 4.1).

ghost use Rattle.std.specs.Prelude.{refl};
ghost use Rattle.device_addr.specs.Version.{ff_device_versions4, ff_device_versions4_value};

use ff_xdr::{Cursor, Message, NoMemory, Out, Wire, XdrError};

/// A version of NFS that a device speaks, and how large its reads and writes may be,
/// `ff_device_versions4` (RFC 8435, section 4.1). Here any numbers.
#[derive(Clone, Copy, Debug, PartialEq, Eq)]
pub struct FfVersion {
    /// 3 for NFSv3, 4 for NFSv4.
    pub version: u32,
    /// The minor version; 0 for NFSv3.
    pub minorversion: u32,
    /// The most bytes that one READ may ask for.
    pub rsize: u32,
    /// The most bytes that one WRITE may have.
    pub wsize: u32,
    /// The metadata server and the device are tightly coupled (RFC 8435, section 2).
    pub tightly_coupled: bool,
}

impl Message for FfVersion {
    ghost form = { ff_device_versions4 };

    ghost meaning = { ff_device_versions4_value };

    ghost sound = { refl };
}

impl<'a> Wire<'a> for FfVersion {
    fn read(cursor: &mut Cursor<'a>) -> Result<FfVersion, XdrError> {
        let (version, minorversion, (rsize, wsize, tightly_coupled)) = Wire::read(cursor)?;
        Ok(FfVersion {
            version,
            minorversion,
            rsize,
            wsize,
            tightly_coupled,
        })
    }

    fn put(&self, out: &mut Out) -> Result<(), NoMemory> {
        (
            self.version,
            self.minorversion,
            (self.rsize, self.wsize, self.tightly_coupled),
        )
            .put(out)
    }

    fn fits(&self) -> bool {
        (
            self.version,
            self.minorversion,
            (self.rsize, self.wsize, self.tightly_coupled),
        )
            .fits()
    }
}
