//! NFSv4.1 (RFC 8881): compounds, their operations one by one.
#![tactic(auto)]

mod all_ops;
mod any_op;
mod cb_compound;
mod cb_op;
mod cb_res;
mod compound;
mod kept;
mod laws;
mod op;
mod op_res;
mod operations;
mod refused;
mod results;
mod stop;
mod tag;

pub use any_op::AnyOp;
pub use cb_compound::{CbCompound, CbOps, judge_cb_compound};
pub use cb_op::CbOp;
pub use cb_res::{CbRes, is_built_cb_op};
pub use compound::{Compound, Ops, judge_compound};
pub use kept::KeptOps;
pub use laws::{every_listing, every_operation, every_refused_number};
pub use nfs4_file_ops;
pub use nfs4_session_ops;
pub use nfs4_unserved_ops;
pub use op::Op;
pub use op_res::{OpRes, is_built_op};
pub use results::{put_cb_compound, put_cb_results, put_compound, put_results};
pub use stop::{NextOp, Stop};
pub use tag::{MAX_TAG4, Tag4};

/// What stands next among the operations of a compound.
pub type Next<'a> = NextOp<Op<'a>>;

/// What stands next among the operations of a callback compound.
pub type CbNext<'a> = NextOp<CbOp<'a>>;
