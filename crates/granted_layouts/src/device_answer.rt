//! The address of a device, in the result of its GETDEVICEINFO (RFC 8881, section 18.40).

ghost use Rattle.std.specs.Prelude.{◌≡◌, ◌<◌, ◌≤◌, ◌^◌, decimal, length};
ghost use Rattle.ff_xdr.specs.Form.{Fits};
ghost use Rattle.nfs4_file_ops.specs.GetDeviceInfo.{getdeviceinfo4_res, getdeviceinfo4_res_value};
ghost use Rattle.device_addr.specs.Universal.{address_text, address_value};
ghost use Rattle.granted_layouts.specs.GrantedBodies.{device_info_length, device_info_result};

use device_addr::NetAddr;
use ff_xdr::Items;
use itoa::Buffer;
use mds_refusals::FLEX_FILES;
use nfs4_file_ops::{GetDeviceInfoOk, GetDeviceInfoRes};
use nfs4_types::{Bitmap, OpaqueBody};

/// How long a byte's number is in decimal, 1 to 3.
fn decimal_len(byte: u8) -> u32
    ensures length { result ≡ length (decimal byte) }
    ensures bound { result ≤ 3 }
{
    let mut buffer = Buffer::new();
    buffer.format(byte).len() as u32
}

/// How long the text of an address is, 11 to 23 bytes.
pub fn text_len(address: &NetAddr) -> u32
    ensures length { result ≡ length (address_text (address_value address.now)) }
    ensures bound { result ≤ 23 }
{
    let [first, second, third, fourth] = address.host;
    let [high, low] = address.port.to_be_bytes();
    let host = decimal_len(first) + decimal_len(second) + decimal_len(third) + decimal_len(fourth);
    host + decimal_len(high) + decimal_len(low) + 5
}

/// How many bytes the fields of a GETDEVICEINFO have that tells this address, which the most bytes that it asks for bound. Takes no
/// memory: 52, and the address as a text.
pub fn device_info_size(address: &NetAddr) -> u32
    ensures { result ≡ device_info_length (address_value address.now) }
{
    52 + (text_len(address) + 3) / 4 * 4
}

/// The result of a GETDEVICEINFO with this body, which is empty where none was asked for; no notification is given.
pub fn device_info_result(body: &[u8]) -> GetDeviceInfoRes<'_>
    requires { length body.now < 2 ^ 32 }
    ensures value { getdeviceinfo4_res_value result ≡ device_info_result body.now }
    ensures fits { Fits getdeviceinfo4_res (getdeviceinfo4_res_value result) }
{
    GetDeviceInfoRes::Done(GetDeviceInfoOk {
        layout_type: FLEX_FILES,
        body: OpaqueBody { bytes: body },
        notification: Bitmap {
            words: Items::made(&[]),
        },
    })
}
