//! The laws of addresses.

ghost use Rattle.ff_xdr.specs.Exact.{IsExact};
ghost use Rattle.device_addr.specs.Device.{ff_device_addr4};
ghost use Rattle.device_addr.specs.Laws.{AreTextsDifferent};

use crate::FfDeviceAddr;
use ff_xdr::every_message_of;

/// The laws of the address of a device: what is written is read back and takes exactly its bytes, what
/// is read is spelled so, and a refusal stands at the first byte that no value has there. `Wire` of
/// each type answers by the same definitions.
pub fn every_device_address()
    ensures { IsExact ff_device_addr4 }
{
    every_message_of::<FfDeviceAddr>();
}

/// Different addresses have different texts. So `parse_universal` gives back the address that
/// `print_universal` wrote, and a text has one address.
pub fn universal_texts()
    ensures { AreTextsDifferent }
{}
