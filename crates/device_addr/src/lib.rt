//! Addresses of devices: universal addresses, the addresses of data servers as GETDEVICEINFO tells them
//! (RFC 8435, section 4.1), and a table from devices to addresses.
#![tactic(auto)]

mod device;
mod laws;
mod net_addr;
mod net_text;
mod table;
mod version;

pub use device::FfDeviceAddr;
pub use laws::{every_device_address, universal_texts};
pub use net_addr::{NetAddr, parse_universal, print_universal};
pub use net_text::NetText;
pub use table::{AddFault, DeviceTable, MAX_DEVICES};
pub use version::FfVersion;
