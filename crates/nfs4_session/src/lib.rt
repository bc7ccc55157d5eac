//! Sessions of NFSv4.1 (RFC 8881, sections 2.4 and 2.10): the clients that a server knows, their sessions and
//! leases, and slots on which each request takes effect once.
#![tactic(auto)]

mod back;
mod begin;
mod cb_slot;
mod change;
mod client;
mod client_sessions;
mod create;
mod ends;
mod exchange;
mod faults;
mod ids;
mod laws;
mod requests;
mod seek;
mod sequence;
mod session;
mod sessions;
mod slot;

pub use back::BackCall;
pub use begin::{Begin, SlotPass};
pub use cb_slot::{CbBegin, CbSlot};
pub use faults::{Created, Exchanged, IdFault, SessionFault};
pub use ids::client_in;
pub use laws::{slots_law, table_law};
pub use sequence::next_sequence;
pub use sessions::Sessions;
