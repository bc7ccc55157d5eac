//! The calls of a client: to the mirrors of its layout, and compounds to the metadata server (RFC 8435, section 2;
//! RFC 8881, section 12).
#![tactic(auto)]

mod all;
mod asks;
mod calls;
mod compounds;
mod laws;

pub use all::end_event;
pub use asks::may_ask;
pub use calls::xid_after;
pub use compounds::ask_mds;
pub use laws::client_law;
