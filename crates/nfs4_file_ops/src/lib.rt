//! NFSv4.1 (RFC 8881): the arguments and results of the operations on files and layouts, exactly.
#![tactic(auto)]

mod cb_layout_recall;
mod close;
mod commit;
mod fattr4;
mod get_device_info;
mod getattr;
mod getfh;
mod layout4;
mod layout_commit;
mod layout_get;
mod layout_return;
mod lookup;
mod open;
mod open_how;
mod putfh;
mod putrootfh;
mod read;
mod stable_how4;
mod write;

pub use cb_layout_recall::{
    CbLayoutRecallArgs, CbLayoutRecallRes, Fsid4, LayoutRecall, LayoutRecallFile,
};
pub use close::{CloseArgs, CloseRes};
pub use commit::{Commit4Args, Commit4Res};
pub use fattr4::Fattr4;
pub use get_device_info::{GetDeviceInfoArgs, GetDeviceInfoOk, GetDeviceInfoRes};
pub use getattr::{GetAttr4Args, GetAttr4Res};
pub use getfh::GetFhRes;
pub use layout_commit::{LayoutCommitArgs, LayoutCommitRes};
pub use layout_get::{LayoutGetArgs, LayoutGetOk, LayoutGetRes};
pub use layout_return::{LayoutReturn, LayoutReturnArgs, LayoutReturnFile, LayoutReturnRes};
pub use layout4::Layout4;
pub use lookup::{Lookup4Args, Lookup4Res};
pub use open::{OpenArgs, OpenOk, OpenRes};
pub use open_how::{CreateHow4, OpenHow};
pub use putfh::{PutFhArgs, PutFhRes};
pub use putrootfh::PutRootFhRes;
pub use read::{Read4Args, Read4Ok, Read4Res};
pub use stable_how4::StableHow4;
pub use write::{Write4Args, Write4Ok, Write4Res};
