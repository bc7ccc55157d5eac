//! The calls of a cluster to its data servers, and their replies, as NFSv3 records (RFC 1813, RFC 5531).
#![tactic(auto)]

mod call;
mod commit;
mod create;
mod handle;
mod header;
mod laws;
mod owner;
mod read;
mod reply;
mod setattr;
mod shown;
mod write;

pub use call::{ds_record, fits, put_ds_call};
pub use laws::every_ds_call;
pub use reply::ds_reply_of;
