//! NFSv4.1 (RFC 8881): the values that operations have in common.
#![tactic(auto)]

mod arm_zero;
mod at_most_one;
mod bitmap;
mod channel;
mod handle;
mod ids;
mod laws;
mod objects;
mod op_result;
mod sequence;
mod stateid;
mod status;
mod texts;
mod time;

pub use arm_zero::ArmZero;
pub use at_most_one::AtMostOne;
pub use bitmap::Bitmap;
pub use channel::ChannelAttrs;
pub use handle::{Handle4, MAX_HANDLE4, file_handle, file_number};
pub use ids::{DeviceId, SessionId, device_of};
pub use laws::different_ids;
pub use objects::{Component4, MAX_OPAQUE4, OpaqueBody, Owner4};
pub use op_result::OpResult;
pub use sequence::Sequence;
pub use stateid::{Stateid, layout_stateid, open_stateid, read_stateid};
pub use status::{Refusal4, Stat4};
pub use texts::FreeText;
pub use time::Time4;
