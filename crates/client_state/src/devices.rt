//! Which devices of a layout are known.

ghost use Rattle.std.specs.Prelude.{◌≡◌, ◌≤◌, length, IfOk};
ghost use Rattle.client_state.specs.ClientQueue.{knows, unknown_in};

use cluster_model::Mirrors;
use device_addr::DeviceTable;
use ff_xdr::NoMemory;
use nfs4_types::device_of;
use std::alloc::Global;

/// The address of the device of this data server is known.
pub fn knows(devices: &DeviceTable, server: u32) -> bool
    ensures { result ≡ knows devices.now server }
{
    devices.get(device_of(server)).is_some()
}

/// How many of these mirrors' data servers have no known address; at most four.
pub fn count_unknown(devices: &DeviceTable, mirrors: &Mirrors) -> u32
    ensures { result ≡ length (unknown_in devices.now mirrors.now) }
{
    let mut count = 0;
    for place in 0..mirrors.len() {
        let Some(mirror) = mirrors.get(place) else {
            return count;
        };
        if !knows(devices, mirror.id.server) {
            count += 1;
        }
    }
    count
}

/// The data servers of these mirrors whose addresses are not known, in their order; at most four.
pub fn unknown_in(
    alloc: Global,
    devices: &DeviceTable,
    mirrors: &Mirrors,
) -> Result<Vec<u32>, NoMemory>
    ensures servers { IfOk result (λ servers. servers.items ≡ unknown_in devices.now mirrors.now) }
    ensures few { IfOk result (λ servers. length servers.items ≤ 4) }
{
    let mut servers = Vec::new(alloc);
    for place in 0..mirrors.len() {
        let Some(mirror) = mirrors.get(place) else {
            return Ok(servers);
        };
        if !knows(devices, mirror.id.server) {
            servers.push(mirror.id.server)?;
        }
    }
    Ok(servers)
}
