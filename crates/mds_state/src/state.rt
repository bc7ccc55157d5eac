//! What a metadata server has.

ghost use Rattle.std.specs.Prelude.{◌≡◌, IfOk};
ghost use Rattle.mds_rule.specs.MdsStates.{new_mds};

use crate::servers::ServerList;
use awaited_calls::Calls;
use cluster_model::{FIRST_UID, NodeId};
use ff_xdr::NoMemory;
use file_rule::Fresh;
use indexmap::{IndexMap, IndexSet};
use nfs4_session::Sessions;
use open_state::Opens;
use recall::Recalls;
use served_files::Files;
use std::alloc::Global;
use std::marker::Model;

/// What a metadata server has (RFC 8881, sections 2.10, 8, 12 and 18; RFC 8435, section 2).
#[derive(Drop)]
pub struct State {
    pub alloc: Global,
    pub servers: ServerList,
    pub sessions: Sessions,
    /// The nodes from which the clients' ids were confirmed.
    pub confirmed: IndexMap<u64, NodeId>,
    pub opens: Opens,
    /// The clients that have sent RECLAIM_COMPLETE.
    pub reclaimed: IndexSet<u64>,
    pub files: Files,
    pub recalls: Recalls,
    /// The calls that were sent and are not answered.
    pub calls: Calls,
    /// The next uid and the next number of a name.
    pub fresh: Fresh,
    /// The number of its next call; 0 where none is left.
    pub next_xid: u32,
}

impl Model for State {
    ghost use Rattle.mds_rule.specs.MdsStates.{MdsValue};

    ghost Value = { MdsValue };

    ghost view = { λ s. record { servers = s.servers.addresses; mirrors = s.servers.mirrors; sessions = s.sessions; confirmed = s.confirmed.entries; opens = s.opens; reclaimed = s.reclaimed.keys; files = s.files; recalls = s.recalls; calls = s.calls; fresh = s.fresh; next_xid = s.next_xid } };
}

impl State {
    /// A new one: no clients and no files. Takes memory.
    pub fn new(alloc: Global, servers: ServerList) -> Result<State, NoMemory>
        ensures { IfOk result (λ state. state ≡ new_mds servers.addresses servers.mirrors) }
    {
        let fresh = Fresh {
            uid: FIRST_UID,
            name: 1,
            servers: servers.len(),
        };
        Ok(State {
            alloc,
            servers,
            sessions: Sessions::new(alloc, 1)?,
            confirmed: IndexMap::new(alloc),
            opens: Opens::new(alloc),
            reclaimed: IndexSet::new(alloc),
            files: Files::new(alloc),
            recalls: Recalls::new(alloc)?,
            calls: Calls::new(alloc),
            fresh,
            next_xid: 1,
        })
    }
}
