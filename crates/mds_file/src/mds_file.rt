//! One file at the metadata server.

ghost use Rattle.std.specs.Prelude.{◌≡◌, ◌≤◌, ℕ, true, length};
ghost use Rattle.cluster_model.specs.DsCalls.{plain_ds_call, data_in};
ghost use Rattle.cluster_model.specs.declared.limits.TheConstants.{PIECE_SIZE};
ghost use Rattle.file_rule.specs.FilePhases.{new_mds_file, is_outstanding};
ghost use Rattle.mds_activity.specs.FileCalls.{SendsFileCall, call_of, servers_waiting, kept_out};
ghost use Rattle.mds_creations.specs.Makings.{are_different};
ghost use Rattle.mds_file.specs.Inputs.{is_idle};

use arrayvec::ArrayVec;
use cluster_model::{Cred, DsCall};
use layout_state::FileState;
use mds_activity::{Activity, FileCall};
use mds_creations::Creations;
use std::alloc::Global;
use std::marker::Model;

/// One file at the metadata server, with the calls that it has under way (RFC 8435, section 2.2).
#[derive(Debug, Drop)]
pub struct MdsFile {
    pub(crate) alloc: Global,
    pub(crate) layout: FileState,
    pub(crate) activity: Activity,
}

impl Model for MdsFile {
    ghost use Rattle.file_rule.specs.MdsFiles.{MdsFile};
    ghost use Rattle.mds_activity.specs.Activities.{plain_activity, IsMdsFile};

    ghost Value = { MdsFile };

    ghost view = { λ f. record { layout = f.layout; activity = plain_activity f.activity } };

    ghost invariant = { λ f. IsMdsFile f.layout f.activity };
}

impl MdsFile {
    /// A new file for its first user: a CREATE waits at each of these data servers, of the file under the name of this
    /// number. Takes no memory.
    pub fn new(alloc: Global, first: Cred, name: u64, servers: &[u32]) -> MdsFile
        requires some { 1 ≤ length servers.now }
        requires few { length servers.now ≤ 4 }
        requires apart { are_different servers.now ≡ true }
        ensures { (n : ℕ) → result ≡ new_mds_file (record { uid = first.0; name = name; servers = n }) servers.now }
    {
        MdsFile {
            alloc,
            layout: FileState::making(first, servers.len() as u32),
            activity: Activity::Makes(Creations::start(first, name, servers)),
        }
    }

    /// Where it stands.
    pub fn state(&self) -> FileState
        ensures { result ≡ self.now.layout }
    {
        self.layout
    }

    /// The servers to which calls wait, in the order in which they go out: the first is that of the next call. Takes no
    /// memory.
    pub fn waiting_servers(&self) -> ArrayVec<u32, 4>
        ensures { result.items ≡ servers_waiting self.now }
    {
        let live = self.layout.live();
        self.activity.waiting_servers(live)
    }

    /// The call that goes out next is outstanding from now on under this number, of which none is outstanding; `None` where
    /// none waits, and nothing changes. Takes no memory.
    pub fn send_next(&mut self, xid: u32) -> Option<FileCall>
        ensures { SendsFileCall self.old xid result self.new }
    {
        let layout = self.layout;
        self.activity.send_next(layout, xid)
    }

    /// That call, lent. Changes nothing.
    pub fn lend(&self, call: FileCall) -> DsCall<'_>
        ensures few { length (data_in (plain_ds_call result)) ≤ PIECE_SIZE }
        ensures lends { plain_ds_call result ≡ call_of self.now call }
    {
        self.activity.lend(call.call)
    }

    /// A call of this number is outstanding to this server.
    pub fn is_outstanding(&self, server: u32, xid: u32) -> bool
        ensures { result ≡ is_outstanding self.now server xid }
    {
        let layout = self.layout;
        self.activity.is_outstanding(layout, server, xid)
    }

    /// The call that is kept outstanding until the next tick, by its server and number: at the tick its record is sent
    /// again.
    pub fn kept_out(&self) -> Option<(u32, u32)>
        ensures { result ≡ kept_out self.now }
    {
        let live = self.layout.live();
        self.activity.kept_out(live)
    }

    /// It has nothing under way.
    pub fn is_idle(&self) -> bool
        ensures { result ≡ is_idle self.now.activity }
    {
        matches!(self.activity, Activity::Idle)
    }
}
