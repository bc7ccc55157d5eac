//! A client's calls to its metadata server on files and layouts, and what their results say: one file each
//! (RFC 8881, RFC 8435).
#![tactic(auto)]

mod device_info;
mod grant;
mod handles;
mod layout_get;
mod layout_return;
mod layouts;
mod open;
mod read;
mod write;

pub use device_info::{device_info_results, put_device_info};
pub use grant::LayoutGrant;
pub use layout_get::{layout_get_results, put_layout_get};
pub use layout_return::{FailedMirror, layout_return_results, put_layout_return};
pub use open::{OpenFile, open_results, put_open};
pub use read::{BytesRead, put_read, read_results};
pub use write::{put_write, write_results};
