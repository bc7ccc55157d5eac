//! What the metadata server refuses of each operation on a file, with which status and in which order (RFC 8881, section 18).
//! Each function is told what the operation finds, and answers what it is done to.
#![tactic(auto)]

mod attributes;
mod close;
mod commit;
mod get_device_info;
mod layout_commit;
mod layout_get;
mod layout_return;
mod lookup;
mod named;
mod object;
mod open;
mod put_fh;
mod read;
mod write;

pub use attributes::{
    AskedAttributes, Attributes, DIRECTORY, FIRST_WORD, LEASE_TIME, REGULAR, SECOND_WORD,
};
pub use close::try_close;
pub use commit::try_commit;
pub use get_device_info::{DeviceInfo, try_get_device_info};
pub use layout_commit::try_layout_commit;
pub use layout_get::{FLEX_FILES, IOMODE_READ, IOMODE_RW, LayoutGetFound, try_layout_get};
pub use layout_return::{FileReturn, try_layout_return, try_layout_return_all};
pub use lookup::{MAX_NAME, try_lookup};
pub use named::{Named, state_named};
pub use object::{Object, current_object};
pub use open::{Creation, OpenFound, OpenStep, try_open};
pub use put_fh::try_put_fh;
pub use read::{MAX_KEPT_READ, ReadAsk, try_read};
pub use write::{WriteAsk, try_write};
