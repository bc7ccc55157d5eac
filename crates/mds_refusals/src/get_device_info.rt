//! GETDEVICEINFO: the address of a device (RFC 8881, section 18.40).

ghost use Rattle.std.specs.Prelude.{◌≢◌, IfErr};
ghost use Rattle.mds_refusals.specs.GetDeviceInfo.{GivesDevice};
ghost use Rattle.nfs4_types.specs.declared.status.Stat4.TheVariants.{Ok};

use crate::layout_get::FLEX_FILES;
use nfs4_types::Stat4;

/// What is given of a device.
#[derive(Clone, Copy, Debug, PartialEq, Eq)]
pub enum DeviceInfo {
    /// Its address.
    Address,
    /// That it is there, without its address: no byte of it was asked for.
    Empty,
}

/// What is given of a device that is known or not, where the result with its address has so many bytes.
///
/// # Errors
/// UNKNOWN_LAYOUTTYPE, NOENT where it is not known, TOOSMALL where fewer bytes are asked for, but some, in this order.
pub fn try_get_device_info(
    layout_type: u32,
    is_known: bool,
    maxcount: u32,
    size: u32,
) -> Result<DeviceInfo, Stat4>
    ensures takes { GivesDevice layout_type is_known maxcount size result }
    ensures refuses { IfErr result (λ status. status ≢ Ok) }
{
    if layout_type != FLEX_FILES {
        return Err(Stat4::UnknownLayoutType);
    }
    if !is_known {
        return Err(Stat4::NoEnt);
    }
    if maxcount == 0 {
        return Ok(DeviceInfo::Empty);
    }
    if maxcount < size {
        return Err(Stat4::TooSmall);
    }
    Ok(DeviceInfo::Address)
}
