//! Time, and calls that time out.

ghost use Rattle.std.specs.Prelude.{◌≡◌, ◌≤◌, length};
ghost use Rattle.std.specs.List.{range_with_len};
ghost use Rattle.cluster_model.specs.Event.{Timeout, Recall, Resilver, Restart};
ghost use Rattle.world_rule.specs.ClusterWorlds.{client_ticks, clients_tick, mds_ticks, ticking, behind};
ghost use Rattle.cluster_world.specs.WorldSteps.{IsNoted, StageBecomes, Drafts, all_tick};

use crate::draft::Draft;
use crate::stage::Stage;
use cluster_machines::Machines;
use cluster_model::{Entry, FileId, NodeId, Outbox, Pieces};
use std::alloc::Global;
use world_journal::WorldFault;

/// A client's part of a tick; it is `now`.
fn tick_client(
    alloc: Global,
    machines: &mut Machines,
    number: u32,
    now: u64,
    draft: &mut Draft,
) -> Result<(), WorldFault>
    ensures { Drafts (client_ticks number) now machines.old draft.old result machines.new draft.new }
{
    let mut out = Outbox::new(alloc);
    machines.tick_client(number, now, &mut out)?;
    draft.act(NodeId::Client(number), out)
}

/// Each client's part of a tick, in order; it is `now`.
fn tick_clients(
    alloc: Global,
    machines: &mut Machines,
    now: u64,
    draft: &mut Draft,
) -> Result<(), WorldFault>
    ensures { Drafts (clients_tick (range_with_len 1 (length machines.old.clients))) now machines.old draft.old result machines.new draft.new }
{
    let count = machines.client_count();
    for place in 0..count {
        tick_client(alloc, machines, place + 1, now, draft)?;
    }
    Ok(())
}

/// The metadata server's part of a tick; it is `now`.
fn tick_mds(
    alloc: Global,
    machines: &mut Machines,
    now: u64,
    draft: &mut Draft,
) -> Result<(), WorldFault>
    ensures { Drafts mds_ticks now machines.old draft.old result machines.new draft.new }
{
    let mut out = Outbox::new(alloc);
    machines.tick_mds(now, &mut out)?;
    draft.act(NodeId::Mds, out)
}

/// Each client's part of a tick in order, and then that of the metadata server; it is `now`.
fn tick_machines(
    alloc: Global,
    machines: &mut Machines,
    now: u64,
    draft: &mut Draft,
) -> Result<(), WorldFault>
    ensures { Drafts (all_tick (length machines.old.clients)) now machines.old draft.old result machines.new draft.new }
{
    tick_clients(alloc, machines, now, draft)?;
    tick_mds(alloc, machines, now, draft)
}

impl Stage {
    /// So many seconds pass: each client's part in order, then that of the metadata server.
    pub fn tick(&mut self, seconds: u32) -> Result<(), WorldFault>
        requires { IsNoted self.old }
        ensures { StageBecomes self.old (ticking seconds self.old.world) result self.new }
    {
        let mut draft = self.draft();
        draft.enter(Entry::Tick { seconds })?;
        let later = self.moment + u64::from(seconds);
        tick_machines(self.alloc, &mut self.machines, later, &mut draft)?;
        self.enter_at(draft, later)
    }

    /// A machine's call to another that was sent first times out.
    pub fn time_out(&mut self, node: NodeId, to: NodeId) -> Result<(), WorldFault>
        requires { IsNoted self.old }
        ensures { StageBecomes self.old (behind (Timeout node to) self.old.world) result self.new }
    {
        let mut out = Outbox::new(self.alloc);
        self.machines.time_out(node, to, self.moment, &mut out)?;
        self.act(node, out)
    }

    /// The layout of a file is recalled.
    pub fn recall(&mut self, file: FileId) -> Result<(), WorldFault>
        requires { IsNoted self.old }
        ensures { StageBecomes self.old (behind (Recall file.0) self.old.world) result self.new }
    {
        let mut out = Outbox::new(self.alloc);
        self.machines.recall(file, self.moment, &mut out)?;
        self.act(NodeId::Mds, out)
    }

    /// Mirrors are added to a file.
    pub fn resilver(&mut self, file: FileId) -> Result<(), WorldFault>
        requires { IsNoted self.old }
        ensures { StageBecomes self.old (behind (Resilver file.0) self.old.world) result self.new }
    {
        let mut out = Outbox::new(self.alloc);
        self.machines.resilver(file, &mut out)?;
        self.act(NodeId::Mds, out)
    }

    /// A data server starts again, with these pieces of its pending writes on its disk.
    pub fn restart(&mut self, server: u32, pieces: Pieces) -> Result<(), WorldFault>
        requires { IsNoted self.old }
        ensures { StageBecomes self.old (behind (Restart server pieces) self.old.world) result self.new }
    {
        let mut out = Outbox::new(self.alloc);
        self.machines.restart(server, pieces, &mut out)?;
        self.act(NodeId::Server(server), out)
    }
}
