//! The address of a data server as a device (RFC 8435, section 4.1).

ghost use Rattle.std.specs.Prelude.{◌≡◌, ◌<◌, ◌^◌, length, IfOk};
ghost use Rattle.device_addr.specs.Universal.{address_value};
ghost use Rattle.granted_layouts.specs.GrantedBodies.{device_body};

use crate::device_answer::{device_info_size, text_len};
use device_addr::{FfVersion, NetAddr, print_universal};
use ff_xdr::{Data, NoMemory, Out, Wire};
use std::alloc::Global;

/// The most bytes of one READ and of one WRITE to a data server.
pub const TRANSFER_SIZE: u32 = 65_536;

/// The body of the address of a data server.
fn device_bytes(alloc: Global, address: &NetAddr) -> Result<Data, NoMemory>
    ensures { IfOk result (λ body. body ≡ device_body (address_value address.now)) }
{
    let mut text = Out::new(alloc);
    print_universal(address, &mut text)?;
    let version = FfVersion {
        version: 3,
        minorversion: 0,
        rsize: TRANSFER_SIZE,
        wsize: TRANSFER_SIZE,
        tightly_coupled: false,
    };
    let mut out = Out::new(alloc);
    out.number32(1)?;
    out.opaque(b"tcp")?;
    out.number32(text_len(address))?;
    out.fixed(text.bytes())?;
    (1u32, version).put(&mut out)?;
    Ok(Data::from_vec(out.into_bytes()))
}

/// The body of the address of a data server, `ff_device_addr4`: it is found there over TCP, and speaks NFSv3. Takes memory.
pub fn device_body(alloc: Global, address: &NetAddr) -> Result<Data, NoMemory>
    ensures exact { IfOk result (λ body. body ≡ device_body (address_value address.now)) }
    ensures few { IfOk result (λ body. length body < 2 ^ 32) }
{
    // no byte is made by it: it tells the checker that the body is short
    let _size = device_info_size(address);
    let body = device_bytes(alloc, address)?;
    Ok(body)
}
