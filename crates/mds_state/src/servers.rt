//! The data servers of a cluster.

ghost use Rattle.std.specs.Prelude.{◌≡◌, ◌≤◌, ◌<◌, ◌^◌, length, map, option_map, true};
ghost use Rattle.device_addr.specs.Universal.{address_value};
ghost use Rattle.mds_creations.specs.Makings.{are_different};
ghost use Rattle.mds_rule.specs.FileOps.{nth_server, servers_of};
ghost use Rattle.mds_rule.specs.LayoutOps.{device_from};

use arrayvec::ArrayVec;
use device_addr::NetAddr;
use nfs4_types::{DeviceId, device_of};
use std::marker::Model;

/// The addresses of the data servers, by their numbers from 1; and how many mirrors a new file is to have: 1 to 4, and no
/// more than there are servers.
#[derive(Drop)]
pub struct ServerList {
    addresses: Vec<NetAddr>,
    mirrors: u32,
}

impl Model for ServerList {
    ghost use Rattle.std.specs.Prelude.{◌≤◌, ◌<◌, ◌^◌, length, map};
    ghost use Rattle.device_addr.specs.Universal.{address_value};
    ghost use Rattle.mds_state.specs.Servers.{ServersValue};

    ghost Value = { ServersValue };

    ghost view = { λ s. record { addresses = map address_value s.addresses.items; mirrors = s.mirrors } };

    ghost invariant = { λ s. (1 ≤ s.mirrors) × (s.mirrors ≤ 4) × (s.mirrors ≤ length s.addresses.items) × (length s.addresses.items < 2 ^ 31) };
}

impl ServerList {
    /// These servers.
    pub fn new(addresses: Vec<NetAddr>, mirrors: u32) -> ServerList
        requires some { 1 ≤ mirrors }
        requires few { mirrors ≤ 4 }
        requires within { mirrors ≤ length addresses.items }
        requires bound { length addresses.items < 2 ^ 31 }
        ensures { result ≡ record { addresses = map address_value addresses.items; mirrors = mirrors } }
    {
        ServerList { addresses, mirrors }
    }

    /// How many there are.
    pub fn len(&self) -> u32
        ensures { result ≡ length self.now.addresses }
    {
        self.addresses.len() as u32
    }

    /// The servers of a new file's mirrors: from one of its own on, round behind the last.
    pub fn of_file(&self, file: u32) -> ArrayVec<u32, 4>
        requires { 1 ≤ file }
        ensures exact { result.items ≡ servers_of (length self.now.addresses) self.now.mirrors file }
        ensures some { 1 ≤ length result.items }
        ensures few { length result.items ≤ 4 }
        ensures apart { are_different result.items ≡ true }
    {
        servers_of(self.addresses.len() as u32, self.mirrors, file)
    }

    /// The address of the server with this device.
    pub fn find(&self, device: DeviceId) -> Option<NetAddr>
        ensures { option_map address_value result ≡ device_from 1 self.now.addresses device.0 }
    {
        address_of(&self.addresses, device)
    }
}

/// The address of the server with this device, of these by their numbers from 1.
fn address_of(addresses: &[NetAddr], device: DeviceId) -> Option<NetAddr>
    requires { length addresses.now < 2 ^ 31 }
    ensures { option_map address_value result ≡ device_from 1 (map address_value addresses.now) device.0 }
{
    for (place, address) in addresses.iter().enumerate() {
        if device_of(place as u32 + 1) == device {
            return Some(*address);
        }
    }
    None
}

/// So many servers for the mirrors of a file.
fn servers_of(servers: u32, mirrors: u32, file: u32) -> ArrayVec<u32, 4>
    requires some { 1 ≤ mirrors }
    requires few { mirrors ≤ 4 }
    requires within { mirrors ≤ servers }
    requires bound { servers < 2 ^ 31 }
    requires first { 1 ≤ file }
    ensures exact { result.items ≡ servers_of servers mirrors file }
    ensures some { 1 ≤ length result.items }
    ensures few { length result.items ≤ 4 }
    ensures apart { are_different result.items ≡ true }
{
    let mut chosen = ArrayVec::new();
    chosen.push(nth_server(servers, file, 0));
    if mirrors == 1 {
        return chosen;
    }
    chosen.push(nth_server(servers, file, 1));
    if mirrors == 2 {
        return chosen;
    }
    chosen.push(nth_server(servers, file, 2));
    if mirrors == 3 {
        return chosen;
    }
    chosen.push(nth_server(servers, file, 3));
    chosen
}

/// The server of a file's mirror at this place.
fn nth_server(servers: u32, file: u32, place: u32) -> u32
    requires some { 1 ≤ servers }
    requires first { 1 ≤ file }
    requires bound { servers < 2 ^ 31 }
    requires few { place ≤ 4 }
    ensures { result ≡ nth_server servers file place }
{
    // in 64 bits, where the sum fits
    let place = (u64::from(file) - 1 + u64::from(place)) % u64::from(servers);
    place as u32 + 1
}
