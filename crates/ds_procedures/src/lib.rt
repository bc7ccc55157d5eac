//! What each call of NFS version 3 comes to at a data server (RFC 1813, section 3.3): its result, and what is
//! to be done. One procedure a file; nothing is changed here.
#![tactic(auto)]

mod access;
mod answer;
mod attributes;
mod commit;
mod create;
mod fsinfo;
mod getattr;
mod lookup;
mod names;
mod object;
mod objects;
mod plan;
mod procedures;
mod read;
mod server_base;
mod setattr;
mod stored;
mod write;

pub use answer::{Answer3, Response};
pub use create::root_after;
pub use lookup::MAX_NAME;
pub use names::Names;
pub use plan::{Effect, Plan};
pub use procedures::plan_of;
pub use server_base::ServerBase;
pub use setattr::MODE_BITS;
pub use write::size_refusal;
