//! What a metadata server grants: the bodies of flexible-file layouts and of the addresses of devices (RFC 8435, sections 4.1
//! and 5.1), how long they are, and the results that bear them (RFC 8881, sections 18.40 and 18.43).
#![tactic(auto)]

mod device_answer;
mod granted_device;
mod granted_layout;
mod layout_answer;

pub use device_answer::{device_info_result, device_info_size};
pub use granted_device::{TRANSFER_SIZE, device_body};
pub use granted_layout::{NO_LAYOUTCOMMIT, STRIPE_UNIT, layout_body};
pub use layout_answer::{layout_result, layout_size, whole_layout};
