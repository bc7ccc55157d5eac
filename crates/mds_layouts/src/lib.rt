//! The operations on layouts and devices, as a metadata server runs them (RFC 8881, sections 18.40 and 18.42 to 18.44; RFC 8435,
//! sections 4, 5 and 9).
#![tactic(auto)]

mod commits;
mod devices;
mod faults;
mod gets;
mod grants;
mod returns;

pub use commits::layout_commit;
pub use devices::get_device_info;
pub use gets::layout_get;
pub use returns::layout_return;
