//! A table from devices to addresses.

ghost use Rattle.std.specs.Prelude.{◌≡◌, [], Err};
ghost use Rattle.device_addr.specs.Table.{Adds, IsDeviceTable, TakesDevice, device_at};

use crate::NetAddr;
use indexmap::IndexMap;
use nfs4_types::DeviceId;
use std::alloc::Global;
use std::marker::Model;
use thiserror::Error;

/// The most devices of a table.
pub const MAX_DEVICES: usize = 16;

/// Why a device was not added.
#[derive(Clone, Copy, Debug, PartialEq, Eq, Error)]
pub enum AddFault {
    /// The table has an address of this device.
    #[error("the device is known")]
    Known,
    /// The table has `MAX_DEVICES` devices.
    #[error("the table is full")]
    Full,
    /// Memory was wanted.
    #[error("memory was wanted")]
    NoMemory,
}

/// Devices and the address of each, in the order in which they came; at most `MAX_DEVICES`. Clauses see
/// a list of pairs.
#[derive(Drop)]
pub struct DeviceTable {
    devices: IndexMap<DeviceId, NetAddr>,
}

impl Model for DeviceTable {
    ghost use Rattle.std.specs.Prelude.{List};
    ghost use Rattle.nfs4_types.specs.declared.ids.DeviceId.{DeviceId};
    ghost use Rattle.device_addr.specs.declared.net_addr.NetAddr.{NetAddr};
    ghost use Rattle.device_addr.specs.Table.{IsDeviceTable};

    ghost Value = { List (DeviceId × NetAddr) };

    ghost view = { λ t. t.devices.entries };

    ghost invariant = { λ t. IsDeviceTable t.devices.entries };
}

impl DeviceTable {
    /// No devices. Takes no memory.
    pub fn new(alloc: Global) -> DeviceTable
        ensures empty { result ≡ [] }
        ensures proper { IsDeviceTable result }
    {
        DeviceTable {
            devices: IndexMap::new(alloc),
        }
    }

    /// Adds a device that is not there, behind the others. `Known` where it is there, with whatever
    /// address; else `Full` where there are `MAX_DEVICES`; else `NoMemory` where memory is wanted. At an
    /// error nothing has changed.
    pub fn add(&mut self, id: DeviceId, address: NetAddr) -> Result<(), AddFault>
        ensures adds { Adds self.old id address result self.new }
        ensures wanted { result ≡ Err AddFault.NoMemory → TakesDevice self.old id }
        ensures proper { IsDeviceTable self.new }
    {
        if self.devices.contains_key(&id) {
            return Err(AddFault::Known);
        }
        if self.devices.len() >= MAX_DEVICES {
            return Err(AddFault::Full);
        }
        if self.devices.insert(id, address).is_err() {
            return Err(AddFault::NoMemory);
        }
        Ok(())
    }

    /// The address of a device, if it is there. Takes no memory.
    pub fn get(&self, id: DeviceId) -> Option<NetAddr>
        ensures { result ≡ device_at self.now id }
    {
        self.devices.get(&id).copied()
    }
}
