//! What is done to one client's record.

use cluster_model::NodeId;

/// A change of one client's record.
#[derive(Clone, Copy, Debug)]
pub enum Change<'c> {
    /// Its lease is renewed at this time, in seconds.
    Renew(u64),
    /// A request is in progress on a slot of a session, and the lease is renewed.
    Begin {
        session: u64,
        slot: u32,
        number: u32,
        now: u64,
    },
    /// A request on a slot of a session is done.
    Finish {
        session: u64,
        slot: u32,
        number: u32,
        reply: &'c [u8],
    },
    /// A session is bound to a node.
    Bind {
        session: u64,
        node: NodeId,
    },
    /// A callback of a session has the next number.
    CallBack {
        session: u64,
    },
    /// A session is destroyed.
    Destroy {
        session: u64,
    },
}
