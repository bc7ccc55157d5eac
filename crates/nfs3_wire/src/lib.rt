//! NFSv3 (RFC 1813): the forms of calls and replies, exactly.
#![tactic(auto)]

mod attributes;
mod call;
mod commit;
mod create;
mod file_type;
mod fsinfo;
mod getattr;
mod laws;
mod lookup;
mod objects;
mod outcome;
mod procedures;
mod read;
mod reply;
mod sattr;
mod setattr;
mod stable_how;
mod status;
mod wcc;
mod write;

pub use attributes::{Fattr3, Specdata3, Time3};
pub use call::{Call3, is_built, read_call, write_call};
pub use commit::{CommitArgs, CommitOk, CommitReply};
pub use create::{CreateArgs, CreateHow, CreateOk, CreateReply};
pub use file_type::FileType;
pub use fsinfo::{FsInfoArgs, FsInfoOk, FsInfoReply};
pub use getattr::{GetAttrArgs, GetAttrReply};
pub use laws::{every_call, every_reply};
pub use lookup::{LookupArgs, LookupOk, LookupReply};
pub use objects::{Bytes, Handle, MAX_DATA, MAX_HANDLE, MAX_NAME, Name};
pub use outcome::Outcome;
pub use read::{ReadArgs, ReadOk, ReadReply};
pub use reply::{Reply3, read_reply, write_reply};
pub use sattr::{Sattr3, SetTime};
pub use setattr::{SetAttrArgs, SetAttrReply};
pub use stable_how::StableHow;
pub use status::Stat3;
pub use wcc::{WccAttr, WccData};
pub use write::{WriteArgs, WriteOk, WriteReply};
