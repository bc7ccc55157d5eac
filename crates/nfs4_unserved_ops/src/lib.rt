//! NFSv4.1 (RFC 8881): the arguments and results of operations that are read and not carried out, exactly.
#![tactic(auto)]

mod access;
mod free_stateid;
mod op;
mod op_res;
mod open_downgrade;
mod read_dir;
mod saved_handle;
mod sec_info_no_name;
mod set_attr;
mod test_stateid;

pub use access::{AccessArgs, AccessOk, AccessRes};
pub use free_stateid::{FreeStateidArgs, FreeStateidRes};
pub use op::UnservedOp;
pub use op_res::UnservedRes;
pub use open_downgrade::{OpenDowngradeArgs, OpenDowngradeRes};
pub use read_dir::ReadDirArgs;
pub use saved_handle::{RestoreFhRes, SaveFhRes};
pub use sec_info_no_name::{Flavor4, SecInfoNoNameRes, SecInfoStyle};
pub use set_attr::{SetAttrArgs, SetAttrRes};
pub use test_stateid::{TestStateidArgs, TestStateidRes};
