//! Addresses of devices that the metadata server gave.

ghost use Rattle.std.specs.Prelude.{◌≡◌, OnOk};
ghost use Rattle.std.specs.Option.{option_to_list};
ghost use Rattle.std.specs.List.{flat_map};
ghost use Rattle.client_answers.specs.ClientAnswers.{with_device, with_addresses, learns_devices};

use client_state::{State, knows, unknown_in};
use device_addr::{AddFault, DeviceTable, NetAddr};
use ff_xdr::NoMemory;
use nfs4_types::device_of;

/// The device of a data server has this address from now on, unless it is known; at most 16 are.
fn add_device(devices: &mut DeviceTable, server: u32, address: NetAddr) -> Result<(), NoMemory>
    ensures { OnOk result (devices.new ≡ with_device devices.old server address) }
{
    if knows(devices, server) {
        return Ok(());
    }
    match devices.add(device_of(server), address) {
        Ok(()) => Ok(()),
        Err(AddFault::Known) => Ok(()),
        Err(AddFault::Full) => Ok(()),
        Err(AddFault::NoMemory) => Err(NoMemory),
    }
}

/// The devices of these data servers have these addresses, in order.
fn add_devices(
    devices: &mut DeviceTable,
    servers: &[u32],
    addresses: &[Option<NetAddr>],
) -> Result<(), NoMemory>
    ensures { OnOk result (devices.new ≡ with_addresses devices.old servers.now (flat_map option_to_list addresses.now)) }
{
    let mut place = 0;
    for address in addresses {
        let Some(address) = address else {
            continue;
        };
        let Some(server) = servers.get(place) else {
            return Ok(());
        };
        add_device(devices, *server, *address)?;
        place += 1;
    }
    Ok(())
}

/// The devices of the layout that were asked for have these addresses.
pub fn learn(client: &mut State, addresses: &[Option<NetAddr>; 4]) -> Result<(), NoMemory>
    ensures { OnOk result (client.new ≡ learns_devices client.old.layout (flat_map option_to_list addresses.now) client.old) }
{
    let Some(layout) = &client.layout else {
        return Ok(());
    };
    let servers = unknown_in(client.alloc, &client.devices, &layout.mirrors)?;
    add_devices(&mut client.devices, &servers, addresses)
}
