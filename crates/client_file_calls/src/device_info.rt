//! GETDEVICEINFO of the devices of data servers (RFC 8881, section 18.40; RFC 8435, section 4.1).

ghost use Rattle.std.specs.Prelude.{◌≡◌, ◌≤◌, ◌&&◌, true, None, [], ◌∷◌, length, map, if◌then◌else◌};
ghost use Rattle.std.specs.List.{flat_map};
ghost use Rattle.std.specs.Option.{option_map, option_to_list};
ghost use Rattle.ff_xdr.specs.Form.{Fits};
ghost use Rattle.ff_xdr.specs.Calls.{Puts};
ghost use Rattle.ff_xdr.specs.Items.{contents};
ghost use Rattle.ff_xdr.specs.Reading.{reading, whole};
ghost use Rattle.nfs4_types.specs.Texts.{netaddr4};
ghost use Rattle.nfs4_compound.specs.Args.{argop4, op_value};
ghost use Rattle.nfs4_compound.specs.Results.{resop4, op_res_value};
ghost use Rattle.device_addr.specs.Device.{ff_device_addr4};
ghost use Rattle.device_addr.specs.NetText.{netaddr4_value};
ghost use Rattle.client_compounds.specs.MdsArguments.{compound_args, sequence_op};
ghost use Rattle.client_compounds.specs.MdsResults.{sequence_ok};
ghost use Rattle.client_file_calls.specs.FileOps.{device_info_op, device_info_ops};
ghost use Rattle.client_file_calls.specs.FileResults.{device_addresses, device_info_results};
ghost use Rattle.client_file_calls.specs.MdsDevices.{address_on_tcp, device_address, device_info_ok, first_address, universal_address};

use crate::layouts::{FLEX_FILES, MAX_COUNT};
use client_compounds::{CompoundResults, Few, Start, few_of, put_ops, sequence_ok, sequence_op};
use device_addr::{FfDeviceAddr, NetAddr, NetText, parse_universal};
use ff_xdr::{Items, NoMemory, Out, Wire};
use nfs4_compound::{Op, OpRes};
use nfs4_file_ops::{GetDeviceInfoArgs, GetDeviceInfoRes};
use nfs4_types::{Bitmap, device_of};

/// GETDEVICEINFO of the device of a data server.
fn device_info_op<'a>(server: u32) -> Op<'a>
    ensures value { op_value result ≡ device_info_op server }
    ensures fits { Fits argop4 (op_value result) }
{
    Op::GetDeviceInfo(GetDeviceInfoArgs {
        device: device_of(server),
        layout_type: FLEX_FILES,
        maxcount: MAX_COUNT,
        notify_types: Bitmap {
            words: Items::made(&[]),
        },
    })
}

/// Appends the arguments for no data server, or nothing: SEQUENCE stands alone.
fn put_none(start: Start, out: &mut Out) -> Result<(), NoMemory>
    ensures { Puts out.old result out.new (compound_args (sequence_op start.session start.sequence true ∷ device_info_ops [])) }
{
    let s = sequence_op(start, true);
    put_ops(&[s], out)?;
    Ok(())
}

/// Appends the arguments for one data server, or nothing.
fn put_one(start: Start, a: u32, out: &mut Out) -> Result<(), NoMemory>
    ensures { Puts out.old result out.new (compound_args (sequence_op start.session start.sequence true ∷ device_info_ops (a ∷ []))) }
{
    let s = sequence_op(start, true);
    let a = device_info_op(a);
    put_ops(&[s, a], out)?;
    Ok(())
}

/// Appends the arguments for two data servers, or nothing.
fn put_two(start: Start, a: u32, b: u32, out: &mut Out) -> Result<(), NoMemory>
    ensures { Puts out.old result out.new (compound_args (sequence_op start.session start.sequence true ∷ device_info_ops (a ∷ b ∷ []))) }
{
    let s = sequence_op(start, true);
    let a = device_info_op(a);
    let b = device_info_op(b);
    put_ops(&[s, a, b], out)?;
    Ok(())
}

/// Appends the arguments for three data servers, or nothing.
fn put_three(start: Start, a: u32, b: u32, c: u32, out: &mut Out) -> Result<(), NoMemory>
    ensures { Puts out.old result out.new (compound_args (sequence_op start.session start.sequence true ∷ device_info_ops (a ∷ b ∷ c ∷ []))) }
{
    let s = sequence_op(start, true);
    let a = device_info_op(a);
    let b = device_info_op(b);
    let c = device_info_op(c);
    put_ops(&[s, a, b, c], out)?;
    Ok(())
}

/// Appends the arguments for four data servers, or nothing.
fn put_four(start: Start, a: u32, b: u32, c: u32, d: u32, out: &mut Out) -> Result<(), NoMemory>
    ensures { Puts out.old result out.new (compound_args (sequence_op start.session start.sequence true ∷ device_info_ops (a ∷ b ∷ c ∷ d ∷ []))) }
{
    let s = sequence_op(start, true);
    let a = device_info_op(a);
    let b = device_info_op(b);
    let c = device_info_op(c);
    let d = device_info_op(d);
    put_ops(&[s, a, b, c, d], out)?;
    Ok(())
}

/// Appends the arguments of the compound, or nothing.
pub fn put_device_info(start: Start, servers: &[u32], out: &mut Out) -> Result<(), NoMemory>
    requires { length servers.now ≤ 4 }
    ensures { Puts out.old result out.new (compound_args (sequence_op start.session start.sequence true ∷ device_info_ops servers.now)) }
{
    match servers {
        [] => put_none(start, out),
        [a] => put_one(start, *a, out),
        [a, b] => put_two(start, *a, *b, out),
        [a, b, c] => put_three(start, *a, *b, *c, out),
        [a, b, c, d] => put_four(start, *a, *b, *c, *d, out),
        _ => unreachable!(),
    }
}

/// The address that a text is (RFC 5665, section 5.2.3.3).
fn universal_address(text: &str) -> Option<NetAddr>
    ensures { result ≡ universal_address text.now }
{
    parse_universal(text)
}

/// The address, where it is one over TCP.
fn address_on_tcp(address: &NetText<'_>) -> Option<NetAddr>
    ensures { result ≡ address_on_tcp (netaddr4_value address.now) }
{
    if address.netid == "tcp" {
        universal_address(address.address)
    } else {
        None
    }
}

/// The first address over TCP that is one.
fn first_address(addresses: Items<'_, NetText<'_>>) -> Option<NetAddr>
    ensures { result ≡ first_address (contents netaddr4 netaddr4_value addresses.entry.place) }
{
    for address in addresses.items() {
        if let Some(found) = address_on_tcp(&address) {
            return Some(found);
        }
    }
    None
}

/// The address of a device, where the body is in its form.
fn device_address(body: &[u8]) -> Option<NetAddr>
    ensures { result ≡ device_address (whole body.now (reading ff_device_addr4 body.now 0)) }
{
    match FfDeviceAddr::from_bytes(body) {
        Ok(device) => first_address(device.addresses),
        Err(_) => None,
    }
}

/// The address of a GETDEVICEINFO that is OK.
fn device_info_ok(of: &OpRes<'_>) -> Option<NetAddr>
    ensures { result ≡ device_info_ok (op_res_value of.now) }
{
    match of {
        OpRes::GetDeviceInfo(GetDeviceInfoRes::Done(done)) => {
            if done.layout_type == FLEX_FILES {
                device_address(done.body.bytes)
            } else {
                None
            }
        }
        _ => None,
    }
}

/// The addresses of so many devices, where all are there.
fn addresses(results: &[OpRes<'_>]) -> Option<[Option<NetAddr>; 4]>
    requires { length results.now ≤ 4 }
    ensures { option_map (flat_map option_to_list) result ≡ device_addresses (map op_res_value results.now) }
{
    match results {
        [] => Some([None; 4]),
        [a] => Some([Some(device_info_ok(a)?), None, None, None]),
        [a, b] => {
            let a = device_info_ok(a)?;
            let b = device_info_ok(b)?;
            Some([Some(a), Some(b), None, None])
        }
        [a, b, c] => {
            let a = device_info_ok(a)?;
            let b = device_info_ok(b)?;
            let c = device_info_ok(c)?;
            Some([Some(a), Some(b), Some(c), None])
        }
        [a, b, c, d] => {
            let a = device_info_ok(a)?;
            let b = device_info_ok(b)?;
            let c = device_info_ok(c)?;
            let d = device_info_ok(d)?;
            Some([Some(a), Some(b), Some(c), Some(d)])
        }
        _ => unreachable!(),
    }
}

/// The addresses behind a SEQUENCE, where these are all that were asked for.
fn devices(start: &OpRes<'_>, is_all: bool, results: &[OpRes<'_>]) -> Option<[Option<NetAddr>; 4]>
    requires { length results.now ≤ 4 }
    ensures { option_map (flat_map option_to_list) result ≡ (if sequence_ok (op_res_value start.now) && is_all then device_addresses (map op_res_value results.now) else None) }
{
    if sequence_ok(start) && is_all {
        addresses(results)
    } else {
        None
    }
}

/// The addresses of so many devices, in the order in which they were asked for, where the results are those
/// of the call, each OK. The filled places come first. Those of more than four are never given.
pub fn device_info_results(count: u32, results: CompoundResults<'_>) -> Option<[Option<NetAddr>; 4]>
    ensures { option_map (flat_map option_to_list) result ≡ device_info_results count (contents resop4 op_res_value results.entry.place) }
{
    match few_of(results) {
        Few::One(s) => devices(&s, count == 0, &[]),
        Few::Two(s, a) => devices(&s, count == 1, &[a]),
        Few::Three(s, a, b) => devices(&s, count == 2, &[a, b]),
        Few::Four(s, a, b, c) => devices(&s, count == 3, &[a, b, c]),
        Few::Five(s, a, b, c, d) => devices(&s, count == 4, &[a, b, c, d]),
        Few::Empty => None,
        Few::More => None,
    }
}
